//! A block, made of an LSN and records.

ghost use Rattle.std.specs.Prelude.{◌≡◌, ◌+◌, ◌*◌, ◌^◌, ◌<◌, ◌≤◌, length, IfOk, Ok};
ghost use Rattle.std.specs.List.{AllByRecursion, flat_map};
ghost use Rattle.pl_block.specs.Block.{IsRecord};
ghost use Rattle.pl_block.specs.Bounds.{last_lsn, longest_block};
ghost use Rattle.pl_block.specs.Spelling.{IsBlock, record_spelling};
ghost use Rattle.pl_block.specs.declared.fault.Failed.TheVariants.{NoMemory};
ghost use Rattle.pl_block.specs.Faults.{Returns};
ghost use Rattle.pl_block.specs.Making.{record_fault, records_fault, block_made};

use crate::block::{Block, Parts};
use crate::bounds::{LONGEST_BLOCK, check_len, check_lsn, check_put};
use crate::fault::{BlockFault, Fault};
use crate::few::Few;
use crate::record::{Record, touched_partitions};
use crate::seen::is_u32;
use std::alloc::Global;

fn check_record(entry: &Record) -> Result<(), Fault>
    ensures value { result ≡ record_fault entry.now }
    ensures valid { IfOk result (λ _. IsRecord entry.now) }
{
    match entry {
        Record::Put {
            page,
            offset,
            bytes,
        } => {
            // Proof only: this does nothing.
            is_u32(page);
            check_put(*offset, bytes.len())
        }
        Record::Zero { page } => {
            // Proof only: this does nothing.
            is_u32(page);
            Ok(())
        }
    }
}

fn check_records(records: &[Record]) -> Result<(), Fault>
    ensures value { result ≡ records_fault records.now }
    ensures valid { IfOk result (λ _. AllByRecursion IsRecord records.now) }
{
    for entry in records {
        check_record(entry)?;
    }
    Ok(())
}

fn record_len(entry: &Record) -> usize
    ensures value { result ≡ length (record_spelling entry.now) }
    ensures fits { result < 2 ^ 63 + 9 }
{
    match entry {
        Record::Put { bytes, .. } => 9 + bytes.len(),
        Record::Zero { .. } => 5,
    }
}

// The length of the spelling of a block with these partitions and records, if a block can
// have it; otherwise some length that no block can have.
fn spelling_len(partitions: &[u16], records: &[Record]) -> usize
    ensures value { result ≤ longest_block →
        result ≡ 12 + 2 * length partitions.now + length (flat_map record_spelling records.now) }
    ensures long { longest_block < result → longest_block <
        12 + 2 * length partitions.now + length (flat_map record_spelling records.now) }
{
    let mut len = 12 + 2 * partitions.len();
    for entry in records {
        // What is too long is not counted on, so that no sum wraps.
        if len > LONGEST_BLOCK {
            return len;
        }
        len += record_len(entry);
    }
    len
}

// What the LSN and the records make, with what is kept beside them.
#[tactic(auto, unfolding(crate::specs::Making::block_made))]
fn parts_of(alloc: Global, lsn: u64, records: Vec<Record>) -> Result<Parts, BlockFault>
    ensures exact { Returns result (block_made lsn records.items) }
    ensures no_memory { result ≡ Err NoMemory →
        (1 ≤ lsn) × (lsn ≤ last_lsn) × (records_fault records.items ≡ Ok tt) }
{
    check_lsn(lsn)?;
    check_records(&records)?;
    let partitions = touched_partitions(alloc, &records)?;
    let len = spelling_len(&partitions, &records);
    check_len(len)?;
    Ok(Parts {
        lsn,
        partitions: Few::Many(partitions),
        records: Few::Many(records),
        len,
        spelling: None,
    })
}

impl Block {
    /// A block of the LSN and the records, which are kept as they are. The LSN is 1 to 2^48, each
    /// Put has at least one byte and ends within its page, and the spelling has at most 32,768 bytes.
    ///
    /// The LSN is tested first, then each record in turn, and the length of the spelling last. After
    /// a fault the records are dropped.
    pub fn new(alloc: Global, lsn: u64, records: Vec<Record>) -> Result<Block, BlockFault>
        // What is made is a block by the grammar (`IsBlock`).
        ensures valid { IfOk result (λ b. IsBlock b) }
        // An LSN and records that are a block make it, unless memory runs out.
        ensures only { IsBlock (record { lsn = lsn; records = records.items }) →
            Returns result (Ok (record { lsn = lsn; records = records.items })) }
        // The block of them, the first fault, or out of memory (`block_made`).
        ensures exact { Returns result (block_made lsn records.items) }
        // Memory runs out only after the tests of the LSN and of the records.
        ensures no_memory { result ≡ Err NoMemory →
            (1 ≤ lsn) × (lsn ≤ last_lsn) × (records_fault records.items ≡ Ok tt) }
    {
        Block::of_parts(alloc, parts_of(alloc, lsn, records)?)
    }
}
