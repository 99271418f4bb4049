//! A conversation: the frames of requests in, the frames of their replies out.

ghost use Rattle.std.specs.Prelude.{◌≡◌, ◌+◌, ◌<◌, ◌≤◌, IfErr, IfOk, Ok, length, true};
ghost use Rattle.pl_conn.specs.Conversation.{Converses, scene};
ghost use Rattle.pl_conn.specs.Gathering.{MayGather, TakesFrame, Turns};

use crate::answers::{answer_first, answer_whole, write_ready};
use crate::cause::{Cause, ConnFault, cause_of};
use crate::outbox::Outbox;
use crate::source::Source;
use pl_wire::{Gate, LONGEST_REQUEST, decode_request, read_frame};
use std::alloc::Global;
use std::io::Write;

/// The most frames that one conversation answers.
const MOST_FRAMES: u64 = 1 << 32;

// Takes the next frame and answers it: where it lies, if all of it is buffered, and else by reads. The reply has its
// room before the request has its step. False at the end of input.
#[tactic(auto, using(crate::proofs::Gathered::takes_buffered, crate::proofs::Gathered::takes_fault))]
fn take_next<R: Source, G: Gate>(
    reader: &mut R,
    gate: &G,
    pass: &mut G::Pass,
    outbox: &mut Outbox,
) -> Result<bool, Cause>
    requires own { G.owns gate.now pass.old }
    requires room { MayGather outbox.old }
    ensures own { G.owns gate.now pass.new }
    ensures value { TakesFrame (G.calls gate.now) (R.remaining reader.old) pass.old outbox.old
        (R.remaining reader.new) pass.new outbox.new result }
    ensures one { result ≡ Ok true → length outbox.new.lens ≡ length outbox.old.lens + 1 }
{
    if let Some(count) = answer_first(reader.buffered(), gate, pass, outbox) {
        reader.consume(count);
        return Ok(true);
    }
    match read_frame(outbox.alloc(), reader, LONGEST_REQUEST) {
        Ok(Some(body)) => {
            let read = decode_request(outbox.alloc(), &body);
            outbox.put_answer(read, gate, pass);
            Ok(true)
        }
        Ok(None) => Ok(false),
        Err(fault) => Err(cause_of(fault)),
    }
}

// One turn: answers the next frame, and the whole frames that are buffered after it, as many as may wait together, and
// writes the replies. Returns their number, at most this many, and 0 at the end of input.
fn turn<R: Source, W: Write, G: Gate>(
    reader: &mut R,
    writer: &mut W,
    most: u64,
    gate: &G,
    pass: &mut G::Pass,
    outbox: &mut Outbox,
) -> Result<u64, ConnFault>
    requires own { G.owns gate.now pass.old }
    requires some { 0 < most }
    ensures own { G.owns gate.now pass.new }
    ensures value { Turns (G.calls gate.now)
        (scene (R.remaining reader.old) (W.contents writer.old) pass.old)
        (scene (R.remaining reader.new) (W.contents writer.new) pass.new)
        result }
    ensures most { IfOk result (λ count. count ≤ most) }
    ensures few { IfErr result (λ fault. fault.answered ≤ most) }
{
    outbox.restart();
    match take_next(reader, gate, pass, outbox) {
        Ok(true) => {}
        Ok(false) => return Ok(0),
        Err(cause) => return Err(ConnFault { cause, answered: 0 }),
    }
    let taken = answer_whole(reader.buffered(), most - 1, gate, pass, outbox);
    reader.consume(taken);
    let (sent, _end) = write_ready(writer, outbox.text());
    if sent < outbox.text().len() {
        let answered = outbox.whole_in(sent);
        return Err(ConnFault {
            cause: Cause::Write,
            answered,
        });
    }
    Ok(outbox.count())
}

/// Reads frames until the end of input, or 2^32 of them, hands each body that is a request to the gate
/// once, and writes the frames of the replies in the same order. It returns how many frames it answered. It is for one
/// thread whose reader blocks; the workers of `serve` use [`Conversation`](crate::Conversation).
///
/// A body that is not a request is answered `Malformed` with its code, and one whose block or text finds
/// no memory `NoMemory`, both without the gate; the conversation goes on. What is answered is written
/// before the next wait for bytes, and before the conversation ends, whatever ends it. Replies to frames
/// that are buffered are written together, in one write if the writer takes it at once.
///
/// The replies that wait have their room, less than 256 KiB and one reply more, and eight bytes for each of
/// 4,096, before a byte is read: if that is refused, nothing was read. A frame is read in place if the reader
/// has all of it buffered; if not, its body takes memory, and if that is
/// refused, the conversation ends before it. So no request has its step whose reply finds no room.
#[tactic(auto, using(crate::proofs::Blocking::converses_none))]
pub fn converse<R: Source, W: Write, G: Gate>(
    alloc: Global,
    reader: &mut R,
    writer: &mut W,
    gate: &G,
    pass: &mut G::Pass,
) -> Result<u64, ConnFault>
    // The pass is the gate's.
    requires own { G.owns gate.now pass.old }
    // The pass stays the gate's.
    ensures own { G.owns gate.now pass.new }
    // The output is the frames of the replies to the frames that were read, in order, by a chain of
    // calls, and this is what it has at a fault (`Converses`).
    ensures value { Converses (G.calls gate.now)
        (scene (R.remaining reader.old) (W.contents writer.old) pass.old)
        (scene (R.remaining reader.new) (W.contents writer.new) pass.new)
        result }
{
    let Ok(mut outbox) = Outbox::new(alloc) else {
        return Err(ConnFault {
            cause: Cause::NoMemory,
            answered: 0,
        });
    };
    let mut answered = 0;
    while answered < MOST_FRAMES {
        let most = MOST_FRAMES - answered;
        match turn(reader, writer, most, gate, pass, &mut outbox) {
            Ok(0) => return Ok(answered),
            Ok(count) => answered += count,
            Err(fault) => {
                return Err(ConnFault {
                    cause: fault.cause,
                    answered: answered + fault.answered,
                });
            }
        }
    }
    Ok(answered)
}
