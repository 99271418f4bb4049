//! Pages after blocks, by replay.

ghost use Rattle.std.specs.Prelude.{◌≡◌, length};
ghost use Rattle.pl_block.specs.Bounds.{page_size};
ghost use Rattle.pl_pages.specs.Page.{after_block, after_blocks};

use pl_block::Block;
use pl_pages::redo;

// Makes the changes that a block makes to a page, in their order.
fn redo_block(page: u32, bytes: &mut [u8], block: &Block)
    requires len { length bytes.old ≡ page_size }
    ensures value { bytes.new ≡ after_block page bytes.old block.now }
    ensures len { length bytes.new ≡ page_size }
{
    for change in block.records() {
        if change.page() == page {
            redo(change, bytes);
        }
    }
}

/// Makes the changes that blocks make to a page, in their order. No memory is taken.
pub fn replay(page: u32, bytes: &mut [u8], blocks: &[Block])
    // The page has 8,192 bytes.
    requires len { length bytes.old ≡ page_size }
    // The page after the blocks (`after_blocks`).
    ensures value { bytes.new ≡ after_blocks page bytes.old blocks.now }
    // It has as many bytes as before.
    ensures len { length bytes.new ≡ page_size }
{
    for block in blocks {
        redo_block(page, bytes, block);
    }
}
