//! Images that are drawn for a row.

ghost use Rattle.std.specs.Prelude.{◌≡◌, length, IfOk};
ghost use Rattle.pl_block.specs.Bounds.{page_size};

use bytes::Bytes;
use pl_block::{NoMemory, PAGE_SIZE};
use pl_images::Image;
use std::alloc::Global;

/// So many bytes of one value, from an offset on.
#[derive(Clone, Copy, Debug)]
pub(crate) struct Run {
    pub(crate) offset: usize,
    pub(crate) len: usize,
    pub(crate) byte: u8,
}

/// A page that has zeros but for some runs.
#[derive(Clone, Copy, Debug)]
pub(crate) struct Drawn {
    pub(crate) page: u32,
    pub(crate) runs: &'static [Run],
}

/// A page of zeros.
pub(crate) fn empty_page(alloc: Global) -> Result<Vec<u8>, NoMemory>
    ensures len { IfOk result (λ page. length page.items ≡ page_size) }
{
    Vec::from_elem(alloc, 0, PAGE_SIZE)
}

fn draw(page: &mut [u8], run: &Run) {
    for byte in page.iter_mut().skip(run.offset).take(run.len) {
        *byte = run.byte;
    }
}

/// The image of a drawn page.
pub(crate) fn image(alloc: Global, drawn: &Drawn) -> Result<Option<Image>, NoMemory> {
    let mut page = empty_page(alloc)?;
    for run in drawn.runs {
        draw(&mut page, run);
    }
    Ok(Image::new(drawn.page, Bytes::from_vec(page)?))
}

/// The images of drawn pages.
pub(crate) fn images(alloc: Global, drawn: &[Drawn]) -> Result<Vec<Image>, NoMemory> {
    let mut images = Vec::new(alloc);
    for one in drawn {
        if let Some(image) = image(alloc, one)? {
            images.push(image)?;
        }
    }
    Ok(images)
}
