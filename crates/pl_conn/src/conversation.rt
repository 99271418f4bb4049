//! A conversation that rests between any two bytes: what it keeps meanwhile, and its turns.

ghost use Rattle.std.specs.Prelude.{◌≡◌, ◌+◌, ◌*◌, ◌<◌, ◌≤◌, ◌⊎◌, [], Err, IfErr, IfOk, Ok, OnErr, OnOk, drop, length};
ghost use Rattle.std.specs.Io.KnownBytes.{IsAtEnd};
ghost use Rattle.pl_wire.specs.FrameReading.{IsCut, IsDecided, LacksFrame};
ghost use Rattle.pl_wire.specs.Frames.{longest_request};
ghost use Rattle.pl_conn.specs.Conversation.{Ends, IsTooLong, scene};
ghost use Rattle.pl_conn.specs.Gathering.{waiting_limit};
ghost use Rattle.pl_conn.specs.Resting.{HasFrame, Hears, Middle, Rests, Speaks, Tells, middle};

use crate::answers::{answer_first, answer_whole, write_ready};
use crate::cause::Cause;
use crate::inbox::{Inbox, LONGEST_FRAME};
use crate::outbox::Outbox;
use pl_wire::{Gate, body_in, is_cut};
use std::alloc::{AllocError, Global};
use std::io::{ErrorKind, Read, Write};
use std::marker::Model;
use std::mem;

/// The most frames that a room holds: each has four bytes at least.
const MOST_FRAMES: u64 = 16_385;

/// How often replies are written at most until all frames of a room are answered.
const MOST_WRITES: u32 = 16_385;

/// How much memory a conversation keeps at most while nothing of it is unread.
const MOST_KEPT: usize = 4_096;

/// How often a turn writes at most, so that the next connection has its turn. Each time it writes as many replies as
/// may wait together.
const WRITES_A_TURN: u32 = 4;

/// What a conversation waits for.
#[derive(Clone, Copy, Debug, PartialEq, Eq)]
pub enum Rest {
    /// For nothing: more of the input may be there, and a turn is due. This one heard a byte of it, or answered a frame.
    Again,
    /// For input. All replies are written, and what was read after the last frame is not a whole frame.
    Input,
    /// For its writer, which did not take all replies. Until it has, no more is read.
    Output,
    /// It is over: the input is at its end after a whole frame, and all replies are written.
    Over,
}

/// Where a conversation has its turns: the room of the longest frame of a request, and that of all replies
/// that may wait together. Conversations share one, since it is empty between two turns.
#[derive(Drop)]
pub struct Room {
    alloc: Global,
    inbox: Inbox,
    outbox: Outbox,
    // Memory for what is unread of one conversation, if there is no other.
    spare: Vec<u8>,
}

impl Room {
    /// An empty room, of about 950 KB.
    pub fn new(alloc: Global) -> Result<Room, AllocError> {
        Ok(Room {
            alloc,
            inbox: Inbox::new(alloc)?,
            outbox: Outbox::new(alloc)?,
            spare: Vec::with_capacity(alloc, LONGEST_FRAME)?,
        })
    }
}

/// A conversation that goes on where it rested, of a reader and a writer that need not wait: what was read
/// of them and not yet taken, and the replies that are not yet written. While there are none of either it has no
/// memory of its own.
#[derive(Drop)]
pub struct Conversation {
    unread: Vec<u8>,
    waiting: Vec<u8>,
    // How many of the bytes that waited are written.
    sent: usize,
}

impl Model for Conversation {
    ghost use Rattle.std.specs.Prelude.{◌<◌, ◌≤◌, drop, length};
    ghost use Rattle.pl_conn.specs.Gathering.{waiting_limit};
    ghost use Rattle.pl_conn.specs.Resting.{Middle};

    ghost Value = { Middle };

    ghost view = { λ c. record { unread = c.unread.items; waiting = drop c.sent c.waiting.items } };

    ghost invariant = { λ c. (length c.unread.items ≤ 65540) × (c.sent ≤ length c.waiting.items)
        × (length c.waiting.items < waiting_limit) };
}

// What a read brought.
#[derive(Clone, Copy)]
enum Heard {
    // There may be more.
    Some,
    // All that is there now.
    All,
    // The end of the input.
    End,
}

// Reads once, unless a whole frame was read, or the length of one that is too long.
fn hear<R: Read>(reader: &mut R, inbox: &mut Inbox) -> Result<Heard, Cause>
    ensures value { Hears (R.remaining reader.old) inbox.old (R.remaining reader.new) inbox.new }
    ensures end { IfOk result (λ heard. heard ≡ Heard.End → IsAtEnd (R.remaining reader.new)) }
    ensures some { IfOk result (λ heard. heard ≡ Heard.Some →
        (length inbox.old < length inbox.new) ⊎ IsDecided longest_request inbox.new) }
    ensures cut { OnErr result (IsCut longest_request inbox.new) }
    ensures cause { IfErr result (λ cause. cause ≡ Cause.Read) }
{
    if !is_cut(inbox.as_slice()) {
        return Ok(Heard::Some);
    }
    match inbox.fill(reader) {
        Ok(0) => Ok(Heard::End),
        Ok(_) if inbox.is_full() => Ok(Heard::Some),
        Ok(_) => Ok(Heard::All),
        Err(error) if error.kind() == ErrorKind::WouldBlock => Ok(Heard::All),
        Err(_) => Err(Cause::Read),
    }
}

// Answers the whole frames of the bytes, in order, and writes their replies, as long as the writer takes all of
// them, and this often at most. Returns how many bytes the frames have, and how many are written of the replies that are
// then in the outbox.
fn speak<W: Write, G: Gate>(
    bytes: &[u8],
    writes: u32,
    writer: &mut W,
    gate: &G,
    pass: &mut G::Pass,
    outbox: &mut Outbox,
) -> (usize, usize, Result<(), Cause>)
    requires own { G.owns gate.now pass.old }
    ensures own { G.owns gate.now pass.new }
    ensures few { (result.0 ≤ length bytes.now) × (result.1 ≤ length outbox.new.text) }
    ensures value { Speaks (G.calls gate.now) pass.old (W.contents writer.old) bytes.now
        pass.new (W.contents writer.new)
        (middle (drop result.0 bytes.now) (drop result.1 outbox.new.text)) }
    ensures all { (result.1 < length outbox.new.text) ⊎ ((4 * writes ≤ result.0)
        ⊎ LacksFrame longest_request (drop result.0 bytes.now)) }
    ensures err { OnErr result.2 (result.1 < length outbox.new.text) }
{
    let mut taken = 0;
    for _ in 0..writes {
        outbox.restart();
        let Some(first) = answer_first(&bytes[taken..], gate, pass, outbox) else {
            return (taken, 0, Ok(()));
        };
        let more = answer_whole(&bytes[taken + first..], MOST_FRAMES, gate, pass, outbox);
        let text = outbox.text();
        let (sent, end) = write_ready(writer, text);
        taken += first + more;
        if end.is_err() || sent < text.len() {
            return (taken, sent, end);
        }
        if taken == bytes.len() {
            return (taken, sent, Ok(()));
        }
    }
    (taken, outbox.text().len(), Ok(()))
}

// Ends a conversation that finds no memory for these bytes, once the frames that are whole are answered. All replies before
// are written: none is lost.
fn end_of<W: Write, G: Gate>(
    bytes: &[u8],
    writer: &mut W,
    gate: &G,
    pass: &mut G::Pass,
    outbox: &mut Outbox,
) -> Cause
    requires own { G.owns gate.now pass.old }
    requires few { length bytes.now ≤ 65540 }
    ensures own { G.owns gate.now pass.new }
    ensures value { (lost : Middle) × Speaks (G.calls gate.now) pass.old
        (W.contents writer.old) bytes.now pass.new (W.contents writer.new) lost
        × ((left : _) → Ends result (lost.waiting ≡ []) (0 < length lost.waiting)
        lost.unread left) }
{
    let (taken, sent, end) = speak(bytes, MOST_WRITES, writer, gate, pass, outbox);
    if end.is_err() || sent < outbox.text().len() {
        return Cause::Write;
    }
    if is_cut(&bytes[taken..]) {
        return Cause::NoMemory;
    }
    Cause::TooLong
}

// Puts the bytes in place of those that are there, in the same memory if they have room.
fn put_all(to: &mut Vec<u8>, bytes: &[u8]) -> Result<(), AllocError>
    ensures ok { OnOk result (to.new.items ≡ bytes.now) }
{
    to.clear();
    to.extend_from_slice(bytes)
}

// What the conversation waits for after a turn that heard this, or why it ends.
fn rest_after(heard: Heard, unread: &[u8], waiting: usize) -> Result<Rest, Cause>
    ensures again { result ≡ Ok Rest.Again → (waiting ≡ 0)
        × (HasFrame unread.now ⊎ ((heard ≡ Heard.Some) × IsCut longest_request unread.now)) }
    ensures input { result ≡ Ok Rest.Input → (waiting ≡ 0) × IsCut longest_request unread.now }
    ensures output { result ≡ Ok Rest.Output → 0 < waiting }
    ensures over { result ≡ Ok Rest.Over → (waiting ≡ 0) × (unread.now ≡ [])
        × (heard ≡ Heard.End) }
    ensures err { IfErr result (λ cause. (waiting ≡ 0)
        × (((cause ≡ Cause.TooLong) × IsTooLong unread.now)
        ⊎ ((cause ≡ Cause.Short) × (0 < length unread.now) × IsCut longest_request unread.now
        × (heard ≡ Heard.End)))) }
{
    if waiting > 0 {
        return Ok(Rest::Output);
    }
    if !is_cut(unread) {
        return match body_in(unread) {
            Some(_frame) => Ok(Rest::Again),
            None => Err(Cause::TooLong),
        };
    }
    match heard {
        Heard::Some => Ok(Rest::Again),
        Heard::All => Ok(Rest::Input),
        Heard::End if unread.is_empty() => Ok(Rest::Over),
        Heard::End => Err(Cause::Short),
    }
}

impl Conversation {
    /// A conversation that has not begun.
    pub fn new(alloc: Global) -> Conversation
        // Nothing was read, and no reply waits.
        ensures value { result ≡ middle [] [] }
    {
        Conversation {
            unread: Vec::new(alloc),
            waiting: Vec::new(alloc),
            sent: 0,
        }
    }

    // What was read, and not taken.
    fn unread(&self) -> &[u8]
        ensures value { result.now ≡ self.now.unread }
        ensures few { length result.now ≤ 65540 }
    {
        &self.unread
    }

    // How many bytes wait to be written.
    fn left(&self) -> usize
        ensures value { result ≡ length self.now.waiting }
    {
        self.waiting.len() - self.sent
    }

    // Writes the replies that wait, as many bytes as the writer takes now.
    fn tell<W: Write>(&mut self, alloc: Global, writer: &mut W) -> Result<(), Cause>
        ensures value { Tells (W.contents writer.old) self.old (W.contents writer.new) self.new }
        ensures few { length self.new.waiting < waiting_limit }
        ensures err { OnErr result (0 < length self.new.waiting) }
        ensures cause { IfErr result (λ cause. cause ≡ Cause.Write) }
    {
        let (count, end) = write_ready(writer, &self.waiting[self.sent..]);
        self.sent += count;
        if self.sent == self.waiting.len() {
            self.waiting = Vec::new(alloc);
            self.sent = 0;
        }
        end
    }

    // Keeps what is unread, in memory of its own, or in the spare one. It is given back if nothing is unread: at once if it
    // is long, else if nothing was unread before. The larger of both stays as the spare one.
    fn keep_unread(
        &mut self,
        alloc: Global,
        unread: &[u8],
        spare: &mut Vec<u8>,
    ) -> Result<(), AllocError>
        requires few { length unread.now ≤ 65540 }
        ensures ok { OnOk result (self.new ≡ middle unread.now self.old.waiting) }
        ensures waits { length self.new.waiting < waiting_limit }
    {
        let is_long = self.unread.capacity() > MOST_KEPT;
        if unread.is_empty() && (is_long || self.unread.is_empty()) {
            if self.unread.capacity() > spare.capacity() {
                mem::swap(&mut self.unread, spare);
            }
            self.unread = Vec::new(alloc);
            return Ok(());
        }
        if put_all(&mut self.unread, unread).is_ok() {
            return Ok(());
        }
        mem::swap(&mut self.unread, spare);
        let end = put_all(&mut self.unread, unread);
        if end.is_err() {
            self.unread.clear();
        }
        end
    }

    // Keeps the replies that the writer did not take, and what is unread.
    fn keep(
        &mut self,
        alloc: Global,
        text: &[u8],
        unread: &[u8],
        spare: &mut Vec<u8>,
    ) -> Result<(), AllocError>
        requires few { length unread.now ≤ 65540 }
        requires within { length text.now < waiting_limit }
        ensures ok { OnOk result (self.new ≡ middle unread.now text.now) }
        ensures waits { length self.new.waiting < waiting_limit }
    {
        self.sent = 0;
        let end = put_all(&mut self.waiting, text);
        if end.is_err() {
            self.waiting.clear();
            return end;
        }
        self.keep_unread(alloc, unread, spare)
    }

    /// One turn: writes the replies that wait; if the writer took them all, reads once, unless a whole frame
    /// is there already, answers the frames that are whole, and writes their replies. It never waits if its reader
    /// and its writer do not: one that would wait fails with `WouldBlock`, and that is where the conversation rests.
    /// It returns what it waits for. A turn answers what one read brought, at most 65,540 bytes of frames, and writes
    /// at most four times the replies that may wait together: less than 256 KiB and one reply more.
    ///
    /// What was read after the last frame that was answered, and the replies that the writer did not take, are
    /// copied into memory of their own; if that is refused, the room has some for what is unread of one
    /// conversation. If that is refused too, all whole frames are answered before the end. After an error
    /// the conversation is over, and what it kept is lost: the
    /// input ended inside a frame (`Short`), a length is above 65,536 (`TooLong`), a read or a write failed, or
    /// there was no memory for what was read of the next frame (`NoMemory`), or for the replies that the writer
    /// did not take (`Write`).
    pub fn resume<R: Read, W: Write, G: Gate>(
        &mut self,
        reader: &mut R,
        writer: &mut W,
        gate: &G,
        pass: &mut G::Pass,
        room: &mut Room,
    ) -> Result<Rest, Cause>
        // The pass is the gate's.
        requires own { G.owns gate.now pass.old }
        // The pass stays the gate's.
        ensures own { G.owns gate.now pass.new }
        // The output goes on with the replies to the frames that the input goes on with, in order,
        // by a chain of calls, however either is cut (`Rests`).
        ensures value { Rests (G.calls gate.now)
            (scene (R.remaining reader.old) (W.contents writer.old) pass.old) self.old
            (scene (R.remaining reader.new) (W.contents writer.new) pass.new) self.new result }
        // Fewer bytes of replies wait than 786,511 (`waiting_limit`).
        ensures waits { length self.new.waiting < waiting_limit }
    {
        self.tell(room.alloc, writer)?;
        if self.left() > 0 {
            return Ok(Rest::Output);
        }
        room.inbox.load(self.unread());
        let heard = hear(reader, &mut room.inbox)?;
        let (bytes, outbox) = (room.inbox.as_slice(), &mut room.outbox);
        let (taken, sent, end) = speak(bytes, WRITES_A_TURN, writer, gate, pass, outbox);
        if end.is_err() {
            return Err(Cause::Write);
        }
        let (unread, left) = (&bytes[taken..], &outbox.text()[sent..]);
        if self.keep(room.alloc, left, unread, &mut room.spare).is_ok() {
            return rest_after(heard, self.unread(), self.left());
        }
        if left.is_empty() {
            return Err(end_of(unread, writer, gate, pass, outbox));
        }
        Err(Cause::Write)
    }
}
