//! The blocks that a generation begins with.

ghost use Rattle.std.specs.Prelude.{◌≡◌, ◌+◌, ◌*◌, ◌≤◌, IfOk, IsTrue, length};
ghost use Rattle.pl_block.specs.Bounds.{last_lsn, page_size};
ghost use Rattle.pl_images.specs.Image.{Makes, are_rising};

use crate::image::Image;
use crate::packing::Packing;
use pl_block::Block;
use std::alloc::{AllocError, Global};

/// The blocks that make the pages of images in a log that begins with them, with the LSNs from `first` on.
///
/// Each is filled before the next one begins. Zeros at the start of a page, and after 64 or more
/// zeros within it, are in no record. The records share the bytes of the images, and copy none.
pub fn blocks_of(alloc: Global, images: &[Image], first: u64) -> Result<Vec<Block>, AllocError>
    // The pages of the images rise (`are_rising`).
    requires rising { IsTrue (are_rising 0 images.now) }
    // There are LSNs for a block of each byte of the images.
    requires some { 1 ≤ first }
    requires numbers { first + page_size * length images.now ≤ last_lsn }
    // Blocks with the LSNs from `first` on, whose pages are those of the images.
    ensures ok { IfOk result (λ blocks. Makes first images.now blocks.items) }
{
    let mut packing = Packing::new(alloc, first);
    for image in images {
        packing.put_image(alloc, image)?;
    }
    packing.finish(alloc)
}
