//! A block, read from its bytes.

ghost use Rattle.std.specs.Prelude.{◌≡◌, ◌≤◌, length, IfOk, IfSome, Ok, nat_eq};
ghost use Rattle.std.specs.Cmp.Lexicographic.{pointwise};
ghost use Rattle.pl_block.specs.Block.{Content, touched};
ghost use Rattle.pl_block.specs.Bounds.{longest_block};
ghost use Rattle.pl_block.specs.Spelling.{IsBlock, block_spelling};
ghost use Rattle.pl_block.specs.declared.fault.Failed.TheVariants.{NoMemory};
ghost use Rattle.pl_block.specs.Few.{listed};
ghost use Rattle.pl_block.specs.Faults.{Gives, Reads, Returns, Takes};
ghost use Rattle.pl_block.specs.Reading.{lsn_at, rising_at, annotations_at, annotations_fault, put_at, zero_at, record_at, records_at, block_reading};

use crate::block::{Block, Parts};
use crate::bounds::{check_len, check_lsn, check_put};
use crate::fault::{BlockFault, Fault};
use crate::few::Few;
use crate::record::{PUT, Record, ZERO, touched_partitions};
use crate::seen::each_is_byte;
use bytes::{Buf, Bytes};
use std::alloc::{AllocError, Global};

/// The bytes of a Zero, of which no record has fewer.
const SHORTEST_RECORD: usize = 5;

#[tactic(auto, unfolding(crate::specs::Reading::lsn_at))]
fn take_lsn(rest: &mut Bytes) -> Result<u64, Fault>
    ensures exact { Reads result rest.new (lsn_at rest.old) }
{
    let lsn = rest.try_get_u64()?;
    check_lsn(lsn)?;
    Ok(lsn)
}

// This many partitions, each above the one before it.
fn take_rising(alloc: Global, count: u16, rest: &mut Bytes) -> Result<Vec<u16>, BlockFault>
    ensures exact { Takes (λ ps. ps.items) result rest.new (rising_at count 0 rest.old) }
{
    let mut partitions = Vec::new(alloc);
    let mut low = 0u32;
    for _ in 0..count {
        let partition = rest.try_get_u16()?;
        if u32::from(partition) < low {
            return Err(BlockFault::Malformed(Fault::PartitionNotAbove));
        }
        partitions.push(partition)?;
        low = u32::from(partition) + 1;
    }
    Ok(partitions)
}

// This many partitions. One alone needs no memory.
#[tactic(auto, unfolding(crate::specs::Reading::rising_at))]
fn take_partitions(alloc: Global, count: u16, rest: &mut Bytes) -> Result<Few<u16>, BlockFault>
    ensures exact { Takes listed result rest.new (rising_at count 0 rest.old) }
{
    if count == 1 {
        return Ok(Few::One(rest.try_get_u16()?));
    }
    Ok(Few::Many(take_rising(alloc, count, rest)?))
}

#[tactic(auto, unfolding(crate::specs::Reading::annotations_at))]
fn take_annotations(alloc: Global, rest: &mut Bytes) -> Result<Few<u16>, BlockFault>
    ensures exact { Takes listed result rest.new (annotations_at rest.old) }
{
    let count = rest.try_get_u16()?;
    take_partitions(alloc, count, rest)
}

#[tactic(auto, unfolding(crate::specs::Reading::put_at))]
fn take_put(rest: &mut Bytes) -> Result<Record, BlockFault>
    ensures exact { Takes (λ x. x) result rest.new (put_at rest.old) }
{
    let page = rest.try_get_u32()?;
    let offset = rest.try_get_u16()?;
    let len = rest.try_get_u16()? as usize;
    check_put(offset, len)?;
    if rest.len() < len {
        return Err(BlockFault::Malformed(Fault::EndsInField));
    }
    let bytes = rest.split_to(len)?;
    Ok(Record::Put {
        page,
        offset,
        bytes,
    })
}

#[tactic(auto, unfolding(crate::specs::Reading::zero_at))]
fn take_zero(rest: &mut Bytes) -> Result<Record, BlockFault>
    ensures exact { Takes (λ x. x) result rest.new (zero_at rest.old) }
{
    let page = rest.try_get_u32()?;
    Ok(Record::Zero { page })
}

#[tactic(auto, unfolding(crate::specs::Reading::record_at))]
fn take_record(rest: &mut Bytes) -> Result<Record, BlockFault>
    ensures exact { Takes (λ x. x) result rest.new (record_at rest.old) }
{
    match rest.try_get_u8()? {
        PUT => take_put(rest),
        ZERO => take_zero(rest),
        _ => Err(BlockFault::Malformed(Fault::UnknownKind)),
    }
}

// This many records. Their places are allocated at once, no more than the bytes that are left can spell.
fn take_each(alloc: Global, count: u16, rest: &mut Bytes) -> Result<Vec<Record>, BlockFault>
    ensures exact { Takes (λ rs. rs.items) result rest.new (records_at count rest.old) }
{
    let places = usize::from(count).min(rest.len() / SHORTEST_RECORD);
    let mut records = Vec::with_capacity(alloc, places)?;
    for _ in 0..count {
        let entry = take_record(rest)?;
        records.push(entry)?;
    }
    Ok(records)
}

// This many records. One alone needs no memory.
#[tactic(auto, unfolding(crate::specs::Reading::records_at))]
fn take_records(alloc: Global, count: u16, rest: &mut Bytes) -> Result<Few<Record>, BlockFault>
    ensures exact { Takes listed result rest.new (records_at count rest.old) }
{
    if count == 1 {
        return Ok(Few::One(take_record(rest)?));
    }
    Ok(Few::Many(take_each(alloc, count, rest)?))
}

// Whether the records touch these partitions. Those of one record are compared without memory.
fn are_touched(alloc: Global, partitions: &[u16], records: &[Record]) -> Result<bool, AllocError>
    ensures value { IfOk result (λ same.
        same ≡ pointwise nat_eq partitions.now (touched records.now)) }
{
    if let [entry] = records {
        return Ok(partitions == [entry.partition()].as_slice());
    }
    Ok(partitions == touched_partitions(alloc, records)?.as_slice())
}

// Whether the annotations are the partitions that the records touch.
fn check_annotations(
    alloc: Global,
    partitions: &[u16],
    records: &[Record],
) -> Result<(), BlockFault>
    ensures exact { Returns result (annotations_fault partitions.now records.now) }
    ensures valid { IfOk result (λ _. partitions.now ≡ touched records.now) }
{
    if !are_touched(alloc, partitions, records)? {
        return Err(BlockFault::Malformed(Fault::WrongAnnotations));
    }
    Ok(())
}

// The LSN, the annotations and the records of a block.
#[tactic(auto, unfolding(crate::specs::Reading::block_reading))]
fn fields_of(alloc: Global, input: Bytes) -> Result<(u64, Few<u16>, Few<Record>), BlockFault>
    ensures exact { Gives (λ x. record { lsn = x.0; records = listed x.2 }) result
        (block_reading input) }
    ensures valid { IfOk result (λ x. listed x.1 ≡ touched (listed x.2)) }
    ensures no_memory { result ≡ Err NoMemory → length input ≤ longest_block }
{
    check_len(input.len())?;
    let mut rest = input;
    let lsn = take_lsn(&mut rest)?;
    let partitions = take_annotations(alloc, &mut rest)?;
    let count = rest.try_get_u16()?;
    let records = take_records(alloc, count, &mut rest)?;
    if !rest.is_empty() {
        return Err(BlockFault::Malformed(Fault::BytesAfterEnd));
    }
    check_annotations(alloc, partitions.as_slice(), records.as_slice())?;
    Ok((lsn, partitions, records))
}

// Another owner of the bytes. None if the owners can be counted no further.
fn another(bytes: &Bytes) -> Option<Bytes>
    ensures value { IfSome result (λ b. b ≡ bytes.now) }
{
    let shared: Result<_, _> = bytes.clone();
    shared.ok()
}

// The parts of the block that the bytes spell.
fn parts_in(alloc: Global, input: Bytes) -> Result<Parts, BlockFault>
    ensures exact { Returns result (block_reading input) }
    ensures no_memory { result ≡ Err NoMemory → length input ≤ longest_block }
{
    // Proof only: this does nothing.
    each_is_byte(input.as_slice());
    let len = input.len();
    let spelling = another(&input);
    let (lsn, partitions, records) = fields_of(alloc, input)?;
    Ok(Parts {
        lsn,
        partitions,
        records,
        len,
        spelling,
    })
}

/// The block that the bytes spell. Its records keep the bytes of the input, and none is copied.
///
/// The first fault is reported in the order of the format: the length of the input, then each
/// field from the front, then bytes that are left over, and the annotations last.
pub fn decode(alloc: Global, input: Bytes) -> Result<Block, BlockFault>
    // What is read is a block, and the bytes are its spelling.
    ensures found { IfOk result (λ b. IsBlock b × (input ≡ block_spelling b)) }
    // Bytes that spell a block are read as that block, unless memory runs out.
    ensures only { (b : Content) → IsBlock b → input ≡ block_spelling b → Returns result (Ok b) }
    // The block that the bytes spell, the first fault, or out of memory (`block_reading`).
    ensures exact { Returns result (block_reading input) }
    // Memory runs out only if the length fits.
    ensures no_memory { result ≡ Err NoMemory → length input ≤ longest_block }
{
    // Proof only: this does nothing.
    each_is_byte(input.as_slice());
    Block::of_parts(alloc, parts_in(alloc, input)?)
}
