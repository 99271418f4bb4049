//! Replies that were given and are not yet written.

ghost use Rattle.std.specs.Prelude.{◌≡◌, ◌<◌, ◌≤◌, ◌↔◌, Err, IfOk, IsTrue, length};
ghost use Rattle.pl_block.specs.Faults.{Returns};
ghost use Rattle.pl_block.specs.declared.fault.Failed.TheVariants.{NoMemory};
ghost use Rattle.pl_wire.specs.Reading.{MayLackMemory, request_reading};
ghost use Rattle.pl_conn.specs.Gathering.{GathersAnswer, MayGather, emptied, waiting_limit, whole_in};

use pl_table::Request;
use pl_wire::{BodyFault, Gate, LARGEST_REPLY_FRAME, Latest, decode_request_after, put_answer};
use std::alloc::{AllocError, Global};
use std::marker::Model;

/// From how many bytes on replies are written, whatever is buffered.
const MANY_BYTES: usize = 262_144;

/// From how many replies on they are written.
const MANY_REPLIES: usize = 4_096;

/// The frames of replies that wait to be written.
///
/// The room of all that may wait is there from the start, so that no reply that was given lacks memory.
#[derive(Drop)]
pub(crate) struct Outbox {
    alloc: Global,
    text: Vec<u8>,
    // How long each frame in the text is.
    lens: Vec<usize>,
    // The block of the last write or offer that was answered here.
    latest: Latest,
}

impl Model for Outbox {
    ghost use Rattle.std.specs.Prelude.{◌<◌, ◌≤◌, vec_capacity, vec_len};
    ghost use Rattle.pl_conn.specs.Gathering.{Box, waiting_limit};

    ghost Value = { Box };

    ghost view = { λ o. record { text = o.text.items; lens = o.lens.items } };

    // Less than 256 KiB and one reply more, and the length of each: so much waits at most, and has its room.
    ghost invariant = { λ o. (waiting_limit ≤ vec_capacity o.text) × (4096 ≤ vec_capacity o.lens)
        × (vec_len o.text < waiting_limit) };
}

// How many of the frames of these lengths are whole within this many bytes.
#[tactic(auto, using(crate::proofs::Talking::whole_at, crate::proofs::Talking::whole_cut, crate::proofs::Talking::whole_past))]
fn whole_in(lens: &[usize], bytes: usize) -> u64
    ensures value { result ≡ whole_in lens.now bytes }
    ensures few { result ≤ length lens.now }
{
    let mut left = bytes;
    let mut whole = 0;
    for len in lens {
        if left < *len {
            return whole;
        }
        left -= *len;
        whole += 1;
    }
    whole
}

impl Outbox {
    /// No replies, and the room of all that may wait.
    pub(crate) fn new(alloc: Global) -> Result<Outbox, AllocError>
        ensures value { IfOk result (λ outbox. outbox ≡ emptied) }
    {
        Ok(Outbox {
            alloc,
            text: Vec::with_capacity(alloc, MANY_BYTES + LARGEST_REPLY_FRAME)?,
            lens: Vec::with_capacity(alloc, MANY_REPLIES)?,
            latest: Latest::new(),
        })
    }

    /// What it takes memory of.
    pub(crate) fn alloc(&self) -> Global {
        self.alloc
    }

    /// Forgets the replies.
    pub(crate) fn restart(&mut self)
        ensures value { self.new ≡ emptied }
    {
        self.text.clear();
        self.lens.clear();
    }

    /// How many replies wait.
    pub(crate) fn count(&self) -> u64
        ensures value { result ≡ length self.now.lens }
    {
        self.lens.len() as u64
    }

    /// How many of them are whole within this many bytes of their frames.
    pub(crate) fn whole_in(&self, bytes: usize) -> u64
        ensures value { result ≡ whole_in self.now.lens bytes }
        ensures few { result ≤ length self.now.lens }
    {
        whole_in(&self.lens, bytes)
    }

    /// The frames that wait.
    pub(crate) fn text(&self) -> &[u8]
        ensures value { result.now ≡ self.now.text }
        ensures few { length result.now < waiting_limit }
    {
        &self.text
    }

    /// Whether one reply more may wait. Else what waits is to be written first.
    pub(crate) fn may_gather(&self) -> bool
        ensures exact { IsTrue result ↔ MayGather self.now }
    {
        self.text.len() < MANY_BYTES && self.lens.len() < MANY_REPLIES
    }

    /// The request that a body spells. The block of a write or an offer that was in the one before, too, is not read again.
    pub(crate) fn request_of(&mut self, body: &[u8]) -> Result<Request, BodyFault>
        ensures exact { Returns result (request_reading body.now) }
        ensures no_memory { result ≡ Err NoMemory → MayLackMemory body.now }
        ensures same { self.new ≡ self.old }
    {
        decode_request_after(self.alloc, body, &mut self.latest)
    }

    /// Answers a body, by what was read of it, and puts the frame of the reply after the others. There is no allocation here,
    /// and the bytes of a page are copied once.
    pub(crate) fn put_answer<G: Gate>(
        &mut self,
        read: Result<Request, BodyFault>,
        gate: &G,
        pass: &mut G::Pass,
    )
        requires own { G.owns gate.now pass.old }
        requires room { MayGather self.old }
        ensures own { G.owns gate.now pass.new }
        ensures value { GathersAnswer (G.calls gate.now) read pass.old self.old pass.new self.new }
    {
        let before = self.text.len();
        put_answer(&mut self.text, read, gate, pass);
        self.lens.push_reserved(self.text.len() - before);
    }
}
