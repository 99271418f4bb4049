//! The pages that blocks make.

ghost use Rattle.std.specs.Prelude.{◌≡◌, length, IfOk};
ghost use Rattle.pl_block.specs.Bounds.{page_size};

use crate::text::LineFault;
use bytes::Bytes;
use pl_block::{Block, PAGE_SIZE};
use pl_images::{Image, replay};
use std::alloc::Global;

/// The pages that blocks change, rising, each once.
fn pages_of(alloc: Global, blocks: &[Block]) -> Result<Vec<u32>, LineFault> {
    let mut pages = Vec::new(alloc);
    for block in blocks {
        for change in block.records() {
            pages.push(change.page())?;
        }
    }
    pages.sort_unstable();
    pages.dedup();
    Ok(pages)
}

/// A page of zeros.
fn empty_page(alloc: Global) -> Result<Vec<u8>, LineFault>
    ensures len { IfOk result (λ page. length page.items ≡ page_size) }
{
    Ok(Vec::from_elem(alloc, 0, PAGE_SIZE)?)
}

/// The images of the pages that blocks make, but for pages of zeros.
pub(crate) fn images_of(alloc: Global, blocks: &[Block]) -> Result<Vec<Image>, LineFault> {
    let mut images = Vec::new(alloc);
    for page in pages_of(alloc, blocks)? {
        let mut bytes = empty_page(alloc)?;
        replay(page, &mut bytes, blocks);
        if bytes.iter().all(|byte| *byte == 0) {
            continue;
        }
        if let Some(image) = Image::new(page, Bytes::from_vec(bytes)?) {
            images.push(image)?;
        }
    }
    Ok(images)
}
