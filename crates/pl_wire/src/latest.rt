//! The block that was read last.

ghost use Rattle.std.specs.Prelude.{◌≡◌, IfSome, Ok};
ghost use Rattle.pl_block.specs.Faults.{Returns};
ghost use Rattle.pl_block.specs.Reading.{block_reading};

use bytes::Bytes;
use pl_block::laws::one_spelling;
use pl_block::{Block, BlockFault, decode};
use std::alloc::Global;

/// The block that was read last. A primary writes a block to one copy after the other: if it comes again, byte for byte, it is
/// shared, and neither read again nor kept twice.
#[derive(Drop)]
pub struct Latest {
    block: Option<Block>,
}

impl Latest {
    /// No block. It allocates nothing.
    pub fn new() -> Latest {
        Latest { block: None }
    }

    // The block, if it was read from these bytes.
    fn of_bytes(&self, bytes: &[u8]) -> Option<Block>
        ensures some { IfSome result (λ block. block_reading bytes.now ≡ Ok block) }
    {
        let block = self.block.as_ref()?;
        if block.spelling()? != bytes {
            return None;
        }
        // Proof only: this does nothing.
        one_spelling();
        block.share().ok()
    }

    /// The block that the bytes spell, as [`decode`] reads it of a copy of them.
    pub(crate) fn read(&mut self, alloc: Global, bytes: &[u8]) -> Result<Block, BlockFault>
        ensures exact { Returns result (block_reading bytes.now) }
    {
        if let Some(block) = self.of_bytes(bytes) {
            return Ok(block);
        }
        let block = decode(alloc, Bytes::copy_from_slice(alloc, bytes)?)?;
        self.block = block.share().ok();
        Ok(block)
    }
}
