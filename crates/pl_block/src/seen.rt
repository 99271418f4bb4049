//! What is looked at is known. A value behind a reference has the range of its type only once it is
//! read; these functions read it and do nothing else.

ghost use Rattle.std.specs.Prelude.{◌^◌, ◌<◌};
ghost use Rattle.std.specs.List.{AllByRecursion};
ghost use Rattle.pl_block.specs.Laws.{AreBytes};
ghost use Rattle.pl_block.specs.Spelling.{IsBlock};

use crate::block::Block;

/// Each element of the slice is a byte.
pub fn each_is_byte(bytes: &[u8])
    // Each byte that is looked at has the range of its type. It does nothing when run.
    ensures value { AreBytes bytes.now }
{
    let _all = bytes;
}

/// The number has 32 bits.
pub fn is_u32(number: &u32)
    // The number that is looked at has the range of its type. It does nothing when run.
    ensures value { number.now < 2 ^ 32 }
{
    let _number = *number;
}

/// Each element of the slice is a block.
pub fn each_is_block(blocks: &[Block])
    // Each block that is looked at is one by the grammar. It does nothing when run.
    ensures value { AllByRecursion IsBlock blocks.now }
{
    for block in blocks {
        let _number = block.lsn();
    }
}
