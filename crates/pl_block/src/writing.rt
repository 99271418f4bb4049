//! A block, written as its bytes.

ghost use Rattle.std.specs.Prelude.{◌≡◌, ◌+◌, ◌*◌, ◌<◌, ◌≤◌, ◌^◌, ◌++◌, length, IfOk, OnOk, OnErr};
ghost use Rattle.std.specs.List.{flat_map};
ghost use Rattle.std.specs.Int.{w16, w64, to_be_bytes};
ghost use Rattle.pl_block.specs.Bounds.{longest_block};
ghost use Rattle.pl_block.specs.Spelling.{IsBlock, record_spelling, block_spelling};
ghost use Rattle.pl_block.specs.Spare.{UsesSpare};

use crate::block::Block;
use crate::record::{PUT, Record, ZERO};
use bytes::BufMut;
use std::alloc::{AllocError, Global};

/// The bytes before the annotations: the LSN, and how many annotations there are.
const FRONT: usize = 10;

/// The bytes of a Put before those that it puts.
const PUT_HEAD: usize = 9;

/// The bytes of a Zero.
const ZERO_BYTES: usize = 5;

// Fields of a fixed size go out together: each write to a vector looks at its room.
fn put_front(out: &mut Vec<u8>, lsn: u64, count: u16) -> Result<(), AllocError>
    ensures ok { OnOk result
        (out.new.items ≡ out.old.items ++ (to_be_bytes w64 lsn ++ to_be_bytes w16 count)) }
    ensures spare { UsesSpare result out.old out.new 10 }
{
    let mut front = [0; FRONT];
    front[..8].copy_from_slice(&lsn.to_be_bytes());
    front[8..].copy_from_slice(&count.to_be_bytes());
    out.put_slice(&front)
}

// The partitions, without their count.
fn put_partitions(out: &mut Vec<u8>, partitions: &[u16]) -> Result<(), AllocError>
    ensures ok { OnOk result
        (out.new.items ≡ out.old.items ++ flat_map (to_be_bytes w16) partitions.now) }
    ensures spare { UsesSpare result out.old out.new (2 * length partitions.now) }
{
    for partition in partitions {
        out.put_u16(*partition)?;
    }
    Ok(())
}

fn put_record(out: &mut Vec<u8>, entry: &Record) -> Result<(), AllocError>
    requires { length (record_spelling entry.now) ≤ longest_block }
    ensures ok { OnOk result (out.new.items ≡ out.old.items ++ record_spelling entry.now) }
    ensures spare { UsesSpare result out.old out.new (length (record_spelling entry.now)) }
{
    match entry {
        Record::Put {
            page,
            offset,
            bytes,
        } => {
            let mut head = [PUT; PUT_HEAD];
            head[1..5].copy_from_slice(&page.to_be_bytes());
            head[5..7].copy_from_slice(&offset.to_be_bytes());
            head[7..].copy_from_slice(&(bytes.len() as u16).to_be_bytes());
            out.put_slice(&head)?;
            out.put_slice(bytes.as_slice())
        }
        Record::Zero { page } => {
            let mut whole = [ZERO; ZERO_BYTES];
            whole[1..].copy_from_slice(&page.to_be_bytes());
            out.put_slice(&whole)
        }
    }
}

fn put_records(out: &mut Vec<u8>, records: &[Record]) -> Result<(), AllocError>
    requires few { length records.now < 2 ^ 16 }
    requires fits { length (flat_map record_spelling records.now) ≤ longest_block }
    ensures ok { OnOk result (out.new.items ≡ out.old.items
        ++ (to_be_bytes w16 (length records.now) ++ flat_map record_spelling records.now)) }
    ensures spare { UsesSpare result out.old out.new
        (2 + length (flat_map record_spelling records.now)) }
{
    out.put_u16(records.len() as u16)?;
    for entry in records {
        put_record(out, entry)?;
    }
    Ok(())
}

/// The length of the spelling of the block, at least 12. It is kept, so the call costs nothing.
pub fn encoded_len(block: &Block) -> usize
    // The length of the block's spelling.
    ensures value { result ≡ length (block_spelling block.now) }
    // It is at most 32,768.
    ensures fits { result ≤ longest_block }
    // What is a `Block` is one by the grammar (`IsBlock`).
    ensures valid { IsBlock block.now }
{
    // Proof only: this does nothing.
    let _lsn = block.lsn();
    block.spelled_len()
}

fn put_block(out: &mut Vec<u8>, block: &Block) -> Result<(), AllocError>
    ensures ok { OnOk result (out.new.items ≡ out.old.items ++ block_spelling block.now) }
    ensures spare { UsesSpare result out.old out.new (length (block_spelling block.now)) }
{
    let partitions = block.partitions();
    let records = block.records();
    put_front(out, block.lsn(), partitions.len() as u16)?;
    put_partitions(out, partitions)?;
    put_records(out, records)
}

/// Appends the one spelling of the block to `out`: if the block was read, the bytes that it was read from, copied at once.
/// Memory is asked for once, and only if `out` lacks room for the whole of it. If the allocation fails, `out` has what it had.
pub fn encode_onto(out: &mut Vec<u8>, block: &Block) -> Result<(), AllocError>
    // The block's spelling is appended.
    ensures ok { OnOk result (out.new.items ≡ out.old.items ++ block_spelling block.now) }
    // After a failure nothing is appended.
    ensures err { OnErr result (out.new.items ≡ out.old.items) }
    // It fails only if the vector lacks room for the spelling, and uses no more room.
    ensures spare { UsesSpare result out.old out.new (length (block_spelling block.now)) }
    // The spelling has at most 32,768 bytes.
    ensures fits { length (block_spelling block.now) ≤ longest_block }
{
    out.reserve(encoded_len(block))?;
    match block.spelling() {
        Some(bytes) => out.put_slice(bytes),
        None => put_block(out, block),
    }
}

/// The one spelling of the block, in a vector of its own, for which memory is asked once.
pub fn encode(alloc: Global, block: &Block) -> Result<Vec<u8>, AllocError>
    // The block's spelling.
    ensures ok { IfOk result (λ bytes. bytes.items ≡ block_spelling block.now) }
    // It has at most 32,768 bytes.
    ensures fits { IfOk result (λ bytes. length bytes.items ≤ longest_block) }
{
    let mut out = Vec::new(alloc);
    encode_onto(&mut out, block)?;
    Ok(out)
}
