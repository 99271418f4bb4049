//! What each conversation does: it answers the whole frames of some bytes, and writes the replies.

ghost use Rattle.std.specs.Prelude.{◌≡◌, ◌+◌, ◌<◌, ◌≤◌, IfErr, IfNone, IfSome, OnErr, length, take};
ghost use Rattle.std.specs.Io.KnownBytes.{Appends};
ghost use Rattle.pl_wire.specs.FrameReading.{LacksFrame};
ghost use Rattle.pl_wire.specs.Frames.{longest_request};
ghost use Rattle.pl_conn.specs.Gathering.{Gathers, GathersOne, MayGather};

use crate::cause::Cause;
use crate::outbox::Outbox;
use pl_wire::{Gate, LENGTH_BYTES, body_in, write_bytes};
use std::io::{ErrorKind, Write};

// Answers the frame that the bytes begin with, if they hold all of it, and returns its length.
pub(crate) fn answer_first<G: Gate>(
    bytes: &[u8],
    gate: &G,
    pass: &mut G::Pass,
    outbox: &mut Outbox,
) -> Option<usize>
    requires own { G.owns gate.now pass.old }
    requires room { MayGather outbox.old }
    ensures own { G.owns gate.now pass.new }
    ensures few { IfSome result (λ count. (4 ≤ count) × (count ≤ length bytes.now)) }
    ensures some { IfSome result (λ count. GathersOne (G.calls gate.now) pass.old
        (take count bytes.now) outbox.old pass.new outbox.new) }
    ensures none { IfNone result ((pass.new ≡ pass.old) × (outbox.new ≡ outbox.old)
        × LacksFrame longest_request bytes.now) }
{
    let body = body_in(bytes)?;
    let read = outbox.request_of(body);
    outbox.put_answer(read, gate, pass);
    Some(LENGTH_BYTES + body.len())
}

// Answers the whole frames of the bytes, in order, at most this many, and as many as may wait together. Returns the
// number of their bytes.
pub(crate) fn answer_whole<G: Gate>(
    bytes: &[u8],
    most: u64,
    gate: &G,
    pass: &mut G::Pass,
    outbox: &mut Outbox,
) -> usize
    requires own { G.owns gate.now pass.old }
    ensures own { G.owns gate.now pass.new }
    ensures few { result ≤ length bytes.now }
    ensures value { Gathers (G.calls gate.now) pass.old (take result bytes.now) outbox.old
        pass.new outbox.new }
    ensures least { length outbox.old.lens ≤ length outbox.new.lens }
    ensures most { length outbox.new.lens ≤ length outbox.old.lens + most }
{
    let mut taken = 0;
    for _ in 0..most {
        if taken == bytes.len() || !outbox.may_gather() {
            break;
        }
        let Some(count) = answer_first(&bytes[taken..], gate, pass, outbox) else {
            break;
        };
        taken += count;
    }
    taken
}

// Writes as many of the bytes as the writer takes now, and returns how many. An error is that of a write that
// failed, or took none.
pub(crate) fn write_ready<W: Write>(writer: &mut W, bytes: &[u8]) -> (usize, Result<(), Cause>)
    ensures few { result.0 ≤ length bytes.now }
    ensures value { Appends (W.contents writer.old) (W.contents writer.new)
        (take result.0 bytes.now) }
    ensures err { OnErr result.1 (result.0 < length bytes.now) }
    ensures cause { IfErr result.1 (λ cause. cause ≡ Cause.Write) }
{
    match write_bytes(writer, bytes) {
        Ok(()) => (bytes.len(), Ok(())),
        Err(stop) if stop.error.kind() == ErrorKind::WouldBlock => (stop.count, Ok(())),
        Err(stop) => (stop.count, Err(Cause::Write)),
    }
}
