//! What records and blocks do to a page.

ghost use Rattle.std.specs.Prelude.{◌≡◌, length, replicate};
ghost use Rattle.pl_block.specs.Bounds.{page_size};
ghost use Rattle.pl_block.specs.Spelling.{IsBlock};
ghost use Rattle.pl_pages.specs.Page.{EndsWithin, after_block, changed, is_image, makes_page};

use pl_block::{Block, PAGE_SIZE, Record};

/// Makes one change of a page: a Put replaces the bytes from its offset on, a Zero makes each byte
/// 0.
///
/// The page has 8,192 bytes, and a Put ends within them, as each Put of a block does. Whether the
/// record is of this page is not looked at. No memory is taken.
pub fn redo(change: &Record, page: &mut [u8])
    // The page has 8,192 bytes.
    requires len { length page.old ≡ page_size }
    // A Put ends within them, as each Put of a block does.
    requires within { EndsWithin page_size change.now }
    // The page after the record.
    ensures value { page.new ≡ changed change.now page.old }
{
    match change {
        Record::Put { offset, bytes, .. } => {
            let start = usize::from(*offset);
            page[start..start + bytes.len()].copy_from_slice(bytes.as_slice());
        }
        Record::Zero { .. } => page.fill(0),
    }
}

/// Makes the changes that a block makes to a page, in their order.
pub(crate) fn redo_block(block: &Block, page: u32, bytes: &mut [u8])
    requires len { length bytes.old ≡ page_size }
    ensures value { bytes.new ≡ after_block page bytes.old block.now }
{
    for change in block.records() {
        if change.page() == page {
            redo(change, bytes);
        }
    }
}

/// Whether the record makes the whole page, whatever was there: a Zero, or a Put of a page's bytes.
pub(crate) fn makes_page(change: &Record) -> bool
    ensures value { result ≡ makes_page change.now }
{
    match change {
        Record::Put { bytes, .. } => bytes.len() == PAGE_SIZE,
        Record::Zero { .. } => true,
    }
}

/// Whether the block has a record that makes the whole page.
pub(crate) fn is_image(block: &Block, page: u32) -> bool
    ensures value { result ≡ is_image page block.now }
    ensures valid { IsBlock block.now }
{
    block
        .records()
        .iter()
        .any(|change| change.page() == page && makes_page(change))
}

/// Makes each byte 0.
pub(crate) fn clear(page: &mut [u8])
    ensures value { page.new ≡ replicate (length page.old) 0 }
{
    page.fill(0);
}
