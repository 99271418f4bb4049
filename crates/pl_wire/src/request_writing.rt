//! A request, written as its bytes.

ghost use Rattle.std.specs.Prelude.{◌≡◌, ◌≤◌, ◌++◌, ◌∷◌, [], length, IfOk, OnOk};
ghost use Rattle.pl_table.specs.Requests.Ops.{op_number};
ghost use Rattle.pl_wire.specs.Spelling.{act_spelling, head_spelling, request_spelling};

use crate::request_reading::OPENING_BYTES;
use bytes::BufMut;
use pl_block::{Block, encode_onto, encoded_len};
use pl_table::{Act, Head, Op, Request};
use std::alloc::{AllocError, Global};

// How many bytes the arguments take.
fn arguments_len(act: &Act) -> usize
    ensures value { result ≡ length (act_spelling act.now) }
{
    match act {
        Act::Write { block, .. } => 1 + encoded_len(block),
        Act::Offer { block } => encoded_len(block),
        Act::Report { .. } => 8,
        Act::Get { .. } => 13,
        Act::Pull { .. } => 14,
        Act::Advance { .. } | Act::Failover { .. } => 4,
        Act::SetTable { text } => text.text().len(),
        Act::Audit { .. } => 10,
        _ => 0,
    }
}

// The head and the operation that a body begins with.
fn put_opening(out: &mut Vec<u8>, head: &Head, op: Op) -> Result<(), AllocError>
    ensures ok { OnOk result (out.new.items ≡ out.old.items
        ++ (head_spelling head.now ++ (op_number op ∷ []))) }
{
    out.put_u32(head.principal)?;
    out.put_slice(&head.token)?;
    out.put_u8(head.role.number())?;
    out.put_u32(head.database)?;
    out.put_u32(head.epoch)?;
    out.put_u8(op.number())
}

fn put_write(out: &mut Vec<u8>, copy: u8, block: &Block) -> Result<(), AllocError>
    ensures ok { OnOk result (out.new.items ≡ out.old.items
        ++ act_spelling (Act.Write copy block.now)) }
{
    out.put_u8(copy)?;
    encode_onto(out, block)
}

fn put_pull(out: &mut Vec<u8>, lo: u16, hi: u16, lsn: u64, max: u16) -> Result<(), AllocError>
    ensures ok { OnOk result (out.new.items ≡ out.old.items
        ++ act_spelling (Act.Pull lo hi lsn max)) }
{
    out.put_u16(lo)?;
    out.put_u16(hi)?;
    out.put_u64(lsn)?;
    out.put_u16(max)
}

fn put_get(out: &mut Vec<u8>, page: u32, lsn: u64, exact: bool) -> Result<(), AllocError>
    ensures ok { OnOk result (out.new.items ≡ out.old.items
        ++ act_spelling (Act.Get page lsn exact)) }
{
    out.put_u32(page)?;
    out.put_u64(lsn)?;
    out.put_u8(u8::from(exact))
}

fn put_advance(out: &mut Vec<u8>, partition: u16, steps: u16) -> Result<(), AllocError>
    ensures ok { OnOk result (out.new.items ≡ out.old.items
        ++ act_spelling (Act.Advance partition steps)) }
{
    out.put_u16(partition)?;
    out.put_u16(steps)
}

fn put_audit(out: &mut Vec<u8>, first: u64, max: u16) -> Result<(), AllocError>
    ensures ok { OnOk result (out.new.items ≡ out.old.items ++ act_spelling (Act.Audit first max)) }
{
    out.put_u64(first)?;
    out.put_u16(max)
}

fn put_arguments(out: &mut Vec<u8>, act: &Act) -> Result<(), AllocError>
    ensures ok { OnOk result (out.new.items ≡ out.old.items ++ act_spelling act.now) }
{
    match act {
        Act::Write { copy, block } => put_write(out, *copy, block),
        Act::Offer { block } => encode_onto(out, block),
        Act::Report { lsn } => out.put_u64(*lsn),
        Act::Get { page, lsn, exact } => put_get(out, *page, *lsn, *exact),
        Act::Pull { lo, hi, lsn, max } => put_pull(out, *lo, *hi, *lsn, *max),
        Act::Advance { partition, steps } => put_advance(out, *partition, *steps),
        Act::Failover { primary } => out.put_u32(*primary),
        Act::SetTable { text } => out.put_slice(text.text()),
        Act::Audit { first, max } => put_audit(out, *first, *max),
        _ => Ok(()),
    }
}

/// How many bytes the request takes.
pub(crate) fn request_len(request: &Request) -> usize
    ensures value { result ≡ length (request_spelling request.now) }
    ensures fits { result ≤ 65536 }
{
    OPENING_BYTES + arguments_len(request.act())
}

/// Appends the spelling of the request.
pub(crate) fn put_request(out: &mut Vec<u8>, request: &Request) -> Result<(), AllocError>
    ensures ok { OnOk result (out.new.items ≡ out.old.items ++ request_spelling request.now) }
{
    let act = request.act();
    put_opening(out, request.head(), act.op())?;
    put_arguments(out, act)
}

/// The one spelling of the request: its head, the number of its operation and the arguments, at most
/// 65,536 bytes.
///
/// The only error is a failed allocation. Room is made once, for the whole request, and the bytes of a
/// block or of a text are copied into it once.
pub fn encode_request(alloc: Global, request: &Request) -> Result<Vec<u8>, AllocError>
    // The spelling of the request.
    ensures ok { IfOk result (λ bytes. bytes.items ≡ request_spelling request.now) }
    // It has at most 65,536 bytes.
    ensures fits { IfOk result (λ bytes. length bytes.items ≤ 65536) }
{
    let mut out = Vec::with_capacity(alloc, request_len(request))?;
    put_request(&mut out, request)?;
    Ok(out)
}
