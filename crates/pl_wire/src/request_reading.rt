//! A request, read from its bytes.

ghost use Rattle.std.specs.Prelude.{◌≡◌, ◌≢◌, ◌+◌, ◌≤◌, IfOk, IsSome, drop, length, slice_index, take};
ghost use Rattle.std.specs.Int.{w16, w32, w64};
ghost use Rattle.pl_block.specs.declared.fault.Failed.TheVariants.{NoMemory};
ghost use Rattle.pl_block.specs.Faults.{Returns};
ghost use Rattle.pl_table.specs.Requests.Ops.{op_of_number, role_of_number};
ghost use Rattle.pl_wire.specs.Reading.{AsksMemory, MayLackMemory, ReadsRequest, head_in, number_in, sized, write_reading, offer_reading, report_reading, flag_of_number, get_reading, pull_reading, advance_reading, failover_reading, audit_reading, act_reading, ranged, opening_reading, request_reading};

use crate::fault::{BodyFault, WireFault, of_block};
use crate::latest::Latest;
use bytes::Buf;
use pl_block::laws::one_spelling;
use pl_block::seen::each_is_byte;
use pl_table::{Act, Head, Op, Request, Role, TableText};
use std::alloc::Global;

/// The bytes of a head, and of the operation after it.
pub(crate) const OPENING_BYTES: usize = 30;

/// The bytes of a token.
const TOKEN_BYTES: usize = 16;

// The number of two bytes at the place, big-endian, as the two that follow.
fn u16_in(bytes: &[u8], at: usize) -> u16
    requires { at + 2 ≤ length bytes.now }
    ensures value { result ≡ number_in w16 at bytes.now }
{
    let (_, mut rest) = bytes.split_at(at);
    rest.get_u16()
}

fn u32_in(bytes: &[u8], at: usize) -> u32
    requires { at + 4 ≤ length bytes.now }
    ensures value { result ≡ number_in w32 at bytes.now }
{
    let (_, mut rest) = bytes.split_at(at);
    rest.get_u32()
}

fn u64_in(bytes: &[u8], at: usize) -> u64
    requires { at + 8 ≤ length bytes.now }
    ensures value { result ≡ number_in w64 at bytes.now }
{
    let (_, mut rest) = bytes.split_at(at);
    rest.get_u64()
}

fn token_in(body: &[u8]) -> [u8; 16]
    requires { 30 ≤ length body.now }
    ensures value { result ≡ take 16 (drop 4 body.now) }
{
    let mut token = [0; TOKEN_BYTES];
    let (_, mut rest) = body.split_at(4);
    rest.copy_to_slice(&mut token);
    token
}

fn head_of(role: Role, body: &[u8]) -> Head
    requires { 30 ≤ length body.now }
    ensures value { result ≡ head_in role body.now }
{
    Head {
        principal: u32_in(body, 0),
        token: token_in(body),
        role,
        database: u32_in(body, 21),
        epoch: u32_in(body, 25),
    }
}

// Whether there are this many bytes, no fewer and no more.
fn check_size(bytes: &[u8], size: usize) -> Result<(), WireFault>
    ensures value { result ≡ sized size bytes.now tt }
{
    if bytes.len() < size {
        return Err(WireFault::EndsInField);
    }
    if bytes.len() > size {
        return Err(WireFault::BytesAfterEnd);
    }
    Ok(())
}

// A write. Its block keeps a copy of the bytes, or is the one that was read last.
#[inline(never)]
fn write_of(alloc: Global, arguments: &[u8], latest: &mut Latest) -> Result<Act, BodyFault>
    ensures exact { Returns result (write_reading arguments.now) }
    ensures no_memory { result ≡ Err NoMemory → 1 ≤ length arguments.now }
{
    let [copy, block @ ..] = arguments else {
        return Err(BodyFault::Malformed(WireFault::EndsInField));
    };
    let block = latest.read(alloc, block).map_err(of_block)?;
    Ok(Act::Write { copy: *copy, block })
}

// An offer, whose block is kept as that of a write.
#[inline(never)]
fn offer_of(alloc: Global, arguments: &[u8], latest: &mut Latest) -> Result<Act, BodyFault>
    ensures exact { Returns result (offer_reading arguments.now) }
{
    let block = latest.read(alloc, arguments).map_err(of_block)?;
    Ok(Act::Offer { block })
}

#[inline(never)]
fn report_of(arguments: &[u8]) -> Result<Act, WireFault>
    ensures value { result ≡ report_reading arguments.now }
{
    check_size(arguments, 8)?;
    Ok(Act::Report {
        lsn: u64_in(arguments, 0),
    })
}

fn flag_of(number: u8) -> Option<bool>
    ensures value { result ≡ flag_of_number number }
{
    match number {
        0 => Some(false),
        1 => Some(true),
        _ => None,
    }
}

#[inline(never)]
fn get_of(arguments: &[u8]) -> Result<Act, WireFault>
    ensures value { result ≡ get_reading arguments.now }
{
    check_size(arguments, 13)?;
    let exact = flag_of(arguments[12]).ok_or(WireFault::OutOfRange)?;
    Ok(Act::Get {
        page: u32_in(arguments, 0),
        lsn: u64_in(arguments, 4),
        exact,
    })
}

#[inline(never)]
fn pull_of(arguments: &[u8]) -> Result<Act, WireFault>
    ensures value { result ≡ pull_reading arguments.now }
{
    check_size(arguments, 14)?;
    Ok(Act::Pull {
        lo: u16_in(arguments, 0),
        hi: u16_in(arguments, 2),
        lsn: u64_in(arguments, 4),
        max: u16_in(arguments, 12),
    })
}

#[inline(never)]
fn advance_of(arguments: &[u8]) -> Result<Act, WireFault>
    ensures value { result ≡ advance_reading arguments.now }
{
    check_size(arguments, 4)?;
    Ok(Act::Advance {
        partition: u16_in(arguments, 0),
        steps: u16_in(arguments, 2),
    })
}

// An act that has no arguments.
#[inline(never)]
fn bare(arguments: &[u8], act: Act) -> Result<Act, WireFault>
    ensures value { result ≡ sized 0 arguments.now act }
{
    check_size(arguments, 0)?;
    Ok(act)
}

#[inline(never)]
fn failover_of(arguments: &[u8]) -> Result<Act, WireFault>
    ensures value { result ≡ failover_reading arguments.now }
{
    check_size(arguments, 4)?;
    Ok(Act::Failover {
        primary: u32_in(arguments, 0),
    })
}

// Reads the table of the text too, once.
#[inline(never)]
fn set_table_of(alloc: Global, text: &[u8]) -> Result<Act, BodyFault>
    ensures exact { Returns result (act_reading Op.SetTable text.now) }
{
    let text = TableText::new(alloc, Vec::from_slice(alloc, text)?)?;
    Ok(Act::SetTable { text })
}

#[inline(never)]
fn audit_of(arguments: &[u8]) -> Result<Act, WireFault>
    ensures value { result ≡ audit_reading arguments.now }
{
    check_size(arguments, 10)?;
    Ok(Act::Audit {
        first: u64_in(arguments, 0),
        max: u16_in(arguments, 8),
    })
}

// The readers of arguments are not inlined: the room of all of them would be cleared at each call.
fn act_of(alloc: Global, op: Op, arguments: &[u8], latest: &mut Latest) -> Result<Act, BodyFault>
    ensures exact { Returns result (act_reading op arguments.now) }
    ensures no_memory { result ≡ Err NoMemory → AsksMemory op arguments.now }
{
    let read = match op {
        Op::Write => return write_of(alloc, arguments, latest),
        Op::Offer => return offer_of(alloc, arguments, latest),
        Op::SetTable => return set_table_of(alloc, arguments),
        Op::Report => report_of(arguments),
        Op::Get => get_of(arguments),
        Op::Pull => pull_of(arguments),
        Op::Advance => advance_of(arguments),
        Op::Status => bare(arguments, Act::Status),
        Op::Failover => failover_of(arguments),
        Op::Audit => audit_of(arguments),
        Op::Tidy => bare(arguments, Act::Tidy),
    };
    Ok(read?)
}

// It is made as what is returned, so that it is moved once.
fn ranged_request(head: Head, act: Act) -> Result<Request, BodyFault>
    ensures exact { Returns result (ranged head act) }
    ensures no_memory { result ≢ Err NoMemory }
{
    match Request::new(head, act) {
        Some(request) => Ok(request),
        None => Err(BodyFault::Malformed(WireFault::OutOfRange)),
    }
}

// The head and the operation that a body begins with.
#[tactic(auto, unfolding(crate::specs::Reading::opening_reading))]
fn opening_of(body: &[u8]) -> Result<(Head, Op), WireFault>
    ensures value { result ≡ opening_reading body.now }
    ensures long { IfOk result (λ _. 30 ≤ length body.now) }
    ensures role { IfOk result (λ _. IsSome (role_of_number (slice_index body.now 20))) }
    ensures op { IfOk result (λ opening. op_of_number (slice_index body.now 29) ≡ Some opening.1) }
{
    if body.len() < OPENING_BYTES {
        return Err(WireFault::TooShort);
    }
    let role = Role::of_number(body[20]).ok_or(WireFault::UnknownRole)?;
    let op = Op::of_number(body[29]).ok_or(WireFault::UnknownKind)?;
    Ok((head_of(role, body), op))
}

#[tactic(auto, unfolding(crate::specs::Reading::request_reading))]
fn request_of(alloc: Global, body: &[u8], latest: &mut Latest) -> Result<Request, BodyFault>
    ensures exact { Returns result (request_reading body.now) }
    ensures no_memory { result ≡ Err NoMemory → MayLackMemory body.now }
{
    let (head, op) = opening_of(body)?;
    let (_, arguments) = body.split_at(OPENING_BYTES);
    let act = act_of(alloc, op, arguments, latest)?;
    ranged_request(head, act)
}

/// The request that the bytes spell, or the fault of the least code.
///
/// The bytes of a block, in a write or an offer, are copied once, and the block keeps the copy. So
/// are those of a table's text, which is read here, once, before its length is tested: a text that
/// writes down no table is a request all the same. The other requests ask for no memory.
pub fn decode_request(alloc: Global, body: &[u8]) -> Result<Request, BodyFault>
    // What is read is a request, and the bytes are its spelling. Bytes that spell a request are read as
    // that request, unless memory runs out. It is the request that the bytes spell, the fault of the
    // least code, or out of memory (`request_reading`). Memory runs out only for a write with a copy,
    // an offer or a set_table, after a head whose role is known (`ReadsRequest`).
    ensures value { ReadsRequest body.now result }
{
    decode_request_after(alloc, body, &mut Latest::new())
}

/// The request that the bytes spell, or the fault of the least code, as [`decode_request`] has it.
///
/// A block that comes again, byte for byte as the last one, is shared: its bytes are compared, and neither read nor copied.
#[tactic(auto, using(crate::proofs::Requests::reads))]
pub fn decode_request_after(
    alloc: Global,
    body: &[u8],
    latest: &mut Latest,
) -> Result<Request, BodyFault>
    // What is read is a request, and the bytes are its spelling. Bytes that spell a request are read as
    // that request, unless memory runs out. It is the request that the bytes spell, the fault of the
    // least code, or out of memory (`request_reading`). Memory runs out only for a write with a copy,
    // an offer or a set_table, after a head whose role is known (`ReadsRequest`).
    ensures value { ReadsRequest body.now result }
{
    // Proof only: these do nothing.
    each_is_byte(body);
    one_spelling();
    request_of(alloc, body, latest)
}
