//! What the rows of the stores share: blocks, why a row ends, and a row that is played.

use bytes::Bytes;
use pl_block::{Block, BlockFault, Record};
use std::alloc::{AllocError, AllocFailed, Global};
use std::process::Abort;

/// Why a row ends before its last line.
#[derive(Drop)]
pub(crate) enum Stop {
    /// An allocation failed.
    NoMemory,
    /// An answer is not the one that is wanted, or a call's condition does not hold.
    Wrong(&'static str),
}

impl From<AllocError> for Stop {
    fn from(_refused: AllocError) -> Stop {
        Stop::NoMemory
    }
}

impl<T: Drop> From<AllocFailed<T>> for Stop {
    fn from(_refused: AllocFailed<T>) -> Stop {
        Stop::NoMemory
    }
}

impl From<BlockFault> for Stop {
    fn from(fault: BlockFault) -> Stop {
        match fault {
            BlockFault::NoMemory => Stop::NoMemory,
            BlockFault::Malformed(_) => Stop::Wrong("no block"),
        }
    }
}

impl Stop {
    fn text(&self) -> &'static str {
        match self {
            Stop::NoMemory => "out of memory",
            Stop::Wrong(what) => *what,
        }
    }
}

pub(crate) fn wants(holds: bool, what: &'static str) -> Result<(), Stop> {
    if holds {
        Ok(())
    } else {
        Err(Stop::Wrong(what))
    }
}

// A row may meet one refused allocation.
pub(crate) fn meets_refusal(refused: &mut bool) -> Result<(), Stop> {
    wants(!*refused, "a second allocation failed")?;
    *refused = true;
    Ok(())
}

/// The bytes of a Put that fills most of a page.
const LONG: [u8; 8000] = [0x5a; 8000];

/// How long the blocks of a row are.
#[derive(Clone, Copy)]
pub(crate) enum Size {
    Short,
    Long,
}

// The block of the LSN: it touches one of the partitions 0 to 6, and one of 100 to 102. A long one
// has 24,000 bytes more.
pub(crate) fn block(alloc: Global, lsn: u64, size: Size) -> Result<Block, Stop> {
    let mut records = Vec::new(alloc);
    records.push(Record::Put {
        page: (lsn % 7) as u32 * 65_536,
        offset: 16,
        bytes: Bytes::copy_from_slice(alloc, &lsn.to_be_bytes())?,
    })?;
    let second = (100 + lsn % 3) as u32 * 65_536;
    records.push(Record::Zero { page: second })?;
    if let Size::Long = size {
        for page in [second, second + 1, second + 2] {
            records.push(Record::Put {
                page,
                offset: 0,
                bytes: Bytes::copy_from_slice(alloc, &LONG)?,
            })?;
        }
    }
    Ok(Block::new(alloc, lsn, records)?)
}

/// A row of a store.
pub(crate) trait Row: Copy {
    /// Plays it to its end. `refused` says whether an allocation was refused before.
    fn play(self, alloc: Global, refused: &mut bool) -> Result<(), Stop>;
}

/// Plays the row, once more if an allocation of its own failed.
pub(crate) fn plays<R: Row>(rt: &impl Abort, alloc: Global, row: R) {
    let mut refused = false;
    let mut end = row.play(alloc, &mut refused);
    if let Err(Stop::NoMemory) = end {
        assert!(rt; !refused, "a second allocation failed");
        refused = true;
        end = row.play(alloc, &mut refused);
    }
    match end {
        Ok(()) => {}
        Err(stop) => assert!(rt; false, "{}", stop.text()),
    }
}
