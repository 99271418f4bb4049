//! The arena: which frames are out, and which are taken again.

ghost use Rattle.std.specs.Prelude.{◌≡◌, ◌<◌, ◌≤◌, ◌*◌, ◌↔◌, None, Some, false, length, is_some, slice_index_or, IfOk, IfSome, OnErr, IsErrOf, IsOk, vec_capacity};
ghost use Rattle.std.specs.FinMap as maps;
ghost use Rattle.std.specs.Borrow.{sem};
ghost use Rattle.pl_arena.specs.Arena.{IsFull, IsOut, capacity, frame_bytes, with_frame, without_frame, zeros};
ghost use Rattle.pl_arena.specs.Free.{AreFlagged, HasFrameMore};
ghost use Rattle.pl_arena.specs.Lends.{LendsFrame};
ghost use Rattle.pl_arena.specs.Packed.{HasRoom};
ghost use Rattle.pl_arena.specs.declared.arena.TakeFault.TheVariants.{Full};

use crate::chunk::CHUNK_FRAMES;
use crate::frames::Frames;
use crate::links::{clear, link_of, set_link};
use std::alloc::Global;
use std::marker::Model;

/// A frame of an arena, by its number. It is a name and no right: a frame that was given back may be
/// taken again under the same number.
#[derive(Clone, Copy, Debug, PartialEq, Eq)]
pub struct FrameId {
    number: u32,
}

impl Model for FrameId {
    ghost use Rattle.std.specs.Prelude.{ℕ};

    ghost Value = { ℕ };

    ghost view = { λ id. id.number };

    ghost inverse = { λ n. record { number = n } };
}

/// Why no frame was taken.
#[derive(Clone, Copy, Debug, PartialEq, Eq)]
pub enum TakeFault {
    /// Each of the 64 frames of each chunk is out.
    Full,
    /// An allocation failed.
    NoMemory,
}

/// Frames of 8,192 bytes in chunks of 64, up to a number of chunks.
///
/// A frame is out from the call of `take` that gave it to the call of `give` that takes it back. The
/// frames lie in chunks that never move, and a chunk is freed with the arena. An arena may be moved
/// to another thread.
#[derive(Drop)]
pub struct VersionArena {
    /// The frames of all chunks, by number.
    frames: Frames,
    /// Of each frame that was ever taken, whether it is out.
    out: Vec<bool>,
    /// One more than the frame that was given back last, or 0 if there is none. A free frame has
    /// the same of the one before it in its first four bytes.
    free: u32,
    max_chunks: u32,
}

impl Model for VersionArena {
    ghost use Rattle.pl_arena.specs.Arena.{Arena};
    ghost use Rattle.pl_arena.specs.Codes.{arena_code};
    ghost use Rattle.pl_arena.specs.Free.{IsArena, arena_of};

    ghost Value = { Arena };

    ghost coded = { arena_code };

    ghost view = { λ a. arena_of a.frames a.out.items a.max_chunks };

    ghost invariant = { λ a. IsArena a.frames a.out.items a.free a.max_chunks };
}

impl VersionArena {
    /// An arena of 1 to 65,536 chunks, of which no frame is out. It allocates nothing.
    pub fn new(alloc: Global, max_chunks: u32) -> VersionArena
        // 1 to 65,536 chunks.
        requires some { 1 ≤ max_chunks }
        requires few { max_chunks ≤ 65536 }
        // The arena may have this many chunks.
        ensures chunks { result.max_chunks ≡ max_chunks }
        // No frame is out.
        ensures none { result.out ≡ maps.empty }
    {
        VersionArena {
            frames: Frames::new(alloc),
            out: Vec::new(alloc),
            free: 0,
            max_chunks,
        }
    }

    /// Whether the frame is out. The cost is constant.
    ///
    /// The service names only frames that it has taken, and does not ask.
    pub fn is_out(&self, id: FrameId) -> bool
        // Whether the frame is out.
        ensures value { result ≡ is_some (frame_bytes self.now id) }
    {
        flag_at(&self.out, id.number as usize)
    }

    /// Takes a frame that was not out, and fills it with zeros.
    ///
    /// The frame that was given back last is taken first. A chunk is allocated if no frame is free
    /// in those that there are. `Full` comes if all 64 frames of each of the chunks are out, and
    /// `NoMemory` if an allocation failed; after either all is as before.
    pub fn take(&mut self) -> Result<FrameId, TakeFault>
        // The frame's number is below 64 times the chunks.
        ensures within { IfOk result (λ id. id < capacity self.old) }
        // The frame was not out.
        ensures fresh { IfOk result (λ id. frame_bytes self.old id ≡ None) }
        // The frame has 8,192 zeros, and all others are as before.
        ensures taken { IfOk result (λ id. self.new ≡ with_frame self.old id zeros) }
        // The frame is out.
        ensures out { IfOk result (λ id. IsOut self.new id) }
        // The fault is `Full` exactly if all frames were out.
        ensures full { IsErrOf result Full ↔ IsFull self.old }
        // After a fault all is as before.
        ensures err { OnErr result (self.new ≡ self.old) }
    {
        if self.free > 0 {
            let number = self.free - 1;
            let place = number as usize;
            self.free = link_of(self.frames.get(place));
            self.out[place] = true;
            clear(self.frames.get_mut(place));
            return Ok(FrameId { number });
        }
        let number = match push_frame(&mut self.frames, &mut self.out, self.max_chunks) {
            Ok(number) => number,
            Err(fault) => return Err(fault),
        };
        Ok(FrameId { number })
    }

    /// Takes back a frame that is out. Its memory is kept for the next that is taken. The service never gives a frame back: a
    /// version that takes the place of another one takes its frame.
    pub fn give(&mut self, id: FrameId)
        // The frame is out.
        requires out { IsOut self.old id }
        // The frame is not out, and all others are as before.
        ensures value { self.new ≡ without_frame self.old id }
    {
        let place = id.number as usize;
        set_link(self.frames.get_mut(place), self.free);
        self.free = id.number + 1;
        self.out[place] = false;
    }

    /// The 8,192 bytes of a frame that is out.
    pub fn bytes(&self, id: FrameId) -> &[u8]
        // The frame is out.
        requires out { IsOut self.now id }
        // The frame's bytes.
        ensures value { frame_bytes self.now id ≡ Some result.now }
        // There are 8,192.
        ensures len { length result.now ≡ 8192 }
    {
        self.frames.get(id.number as usize)
    }

    /// The 8,192 bytes of a frame that is out, to be written.
    pub fn bytes_mut(&mut self, id: FrameId) -> &mut [u8]
        // The frame is out.
        requires out { IsOut self.old id }
        // Once the bytes are given back, the frame has what was written, and all others are as
        // before.
        ensures* writes_back { sem 𝓛 (LendsFrame self.entry id result) }
        // The frame's bytes.
        ensures value { frame_bytes self.old id ≡ Some result.now }
        // There are 8,192.
        ensures len { length result.now ≡ 8192 }
    {
        // Proof only: this does nothing. The length of what is lent is known by it.
        let _bytes = self.bytes(id);
        let frame = self.frames.get_mut(id.number as usize);
        frame.as_mut_slice()
    }

    /// Writes the bytes of `from` into `to`, which may be the same frame.
    pub fn copy(&mut self, from: FrameId, to: FrameId)
        // Both frames are out.
        requires from { IsOut self.old from }
        requires to { IsOut self.old to }
        // The frame `to` has the bytes of `from`, and all others are as before.
        ensures value { IfSome (frame_bytes self.old from) (λ bytes.
            self.new ≡ with_frame self.old to bytes) }
    {
        self.frames.copy(from.number as usize, to.number as usize);
    }
}

// Whether the frame at the place is out; those after the end never were.
fn flag_at(out: &[bool], place: usize) -> bool
    ensures value { result ≡ slice_index_or out.now place false }
{
    match out.get(place) {
        Some(is_out) => *is_out,
        None => false,
    }
}

// Makes a frame of zeros that was never out, and marks it as out.
fn push_frame(frames: &mut Frames, out: &mut Vec<bool>, max_chunks: u32) -> Result<u32, TakeFault>
    requires flags { AreFlagged frames.old out.old.items max_chunks }
    ensures full { IsErrOf result Full ↔ (length out.old.items ≡ 64 * max_chunks) }
    ensures ok { IfOk result (λ number.
        HasFrameMore frames.old out.old.items number frames.new out.new.items) }
    ensures succeeds { HasRoom frames.old → length out.old.items < vec_capacity out.old →
        IsOk result }
    ensures err { OnErr result ((frames.new ≡ frames.old) × (out.new.items ≡ out.old.items)) }
{
    let used = out.len();
    if used == CHUNK_FRAMES * max_chunks as usize {
        return Err(TakeFault::Full);
    }
    match out.push(true) {
        Ok(()) => {}
        Err(_) => return Err(TakeFault::NoMemory),
    }
    match frames.push_zeros() {
        Ok(()) => Ok(used as u32),
        Err(_) => {
            let _flag = out.pop();
            Err(TakeFault::NoMemory)
        }
    }
}
