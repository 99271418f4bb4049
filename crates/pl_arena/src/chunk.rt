//! Up to 64 frames in one block of memory.

ghost use Rattle.std.specs.Prelude.{◌≡◌, ◌<◌, [], ◌∷◌, ◌++◌, length, nat_lt, IfOk, slice_index_or, slice_set};
ghost use Rattle.std.specs.Borrow.{sem};
ghost use Rattle.pl_arena.specs.Arena.{zeros};
ghost use Rattle.pl_arena.specs.Chunks.{LendsFrames, LendsSlot};

use crate::FRAME_SIZE;
use crate::memory::{Deed, Items, Start};
use std::alloc::{AllocError, Global};
use std::marker::Model;

/// The frames that a chunk has room for.
pub(crate) const CHUNK_FRAMES: usize = 64;

type Frame = [u8; FRAME_SIZE];

/// Frames in one block of memory with room for 64. No frame moves.
pub(crate) struct Chunk {
    start: Start<Frame>,
    used: usize,
    items: Items<Frame>,
    deed: Deed<Frame, Global>,
    alloc: Global,
}

impl Model for Chunk {
    ghost use Rattle.std.specs.Prelude.{◌≡◌, ℕ, List, length};
    ghost use Rattle.pl_arena.specs.Block.{IsMemoryBlock};

    ghost Value = { List (List ℕ) };

    ghost view = { λ c. c.items.items };

    ghost invariant = { λ c. IsMemoryBlock c.start c.items c.deed 64 c.alloc
        × (c.used ≡ length c.items.items) };
}

impl Drop for Chunk {
    fn drop(self) {
        let Chunk {
            start,
            used: _,
            items,
            deed,
            alloc,
        } = self;
        Items::deallocate(&alloc, start, CHUNK_FRAMES, items, deed);
    }
}

impl Chunk {
    /// A block without a frame.
    pub(crate) fn new(alloc: Global) -> Result<Chunk, AllocError>
        ensures none { IfOk result (λ chunk. chunk ≡ []) }
    {
        let (start, items, deed) = Items::allocate(&alloc, CHUNK_FRAMES)?;
        Ok(Chunk {
            start,
            used: 0,
            items,
            deed,
            alloc,
        })
    }

    /// Whether there is room for a frame more.
    pub(crate) fn has_room(&self) -> bool
        ensures value { result ≡ nat_lt (length self.now) 64 }
    {
        self.used < CHUNK_FRAMES
    }

    /// Makes a frame of zeros more.
    pub(crate) fn push_zeros(&mut self)
        requires room { length self.old < 64 }
        ensures value { self.new ≡ self.old ++ zeros ∷ [] }
    {
        self.items.push(self.start, self.used, [0; FRAME_SIZE]);
        self.used += 1;
    }

    // The frames.
    fn frames(&self) -> &[Frame]
        ensures value { result.now ≡ self.now }
    {
        self.items.as_slice(self.start, self.used)
    }

    // The frames, to be written.
    fn frames_mut(&mut self) -> &mut [Frame]
        ensures* writes_back { sem 𝓛 (LendsFrames self.entry result) }
        ensures value { result.now ≡ self.old }
    {
        let (start, used) = (self.start, self.used);
        self.items.as_mut_slice(start, used)
    }

    /// The frame at the place.
    pub(crate) fn get(&self, i: usize) -> &Frame
        requires within { i < length self.now }
        ensures value { result.now ≡ slice_index_or self.now i [] }
    {
        &self.frames()[i]
    }

    /// The frame at the place, to be written.
    pub(crate) fn get_mut(&mut self, i: usize) -> &mut Frame
        requires within { i < length self.old }
        ensures* writes_back { sem 𝓛 (LendsSlot self.entry i result) }
        ensures value { result.now ≡ slice_index_or self.old i [] }
    {
        let start = self.start;
        self.items.get_mut(start, i)
    }

    /// Writes the bytes of the frame `from` into the frame `to`.
    pub(crate) fn copy(&mut self, from: usize, to: usize)
        requires from { from < length self.old }
        requires to { to < length self.old }
        ensures value { self.new ≡ slice_set self.old to (slice_index_or self.old from []) }
    {
        copy_in(self.frames_mut(), from, to);
    }
}

// Writes the frame `from` into the frame `to`, with nothing between the two.
fn copy_in(frames: &mut [Frame], from: usize, to: usize)
    requires from { from < length frames.old }
    requires to { to < length frames.old }
    ensures value { frames.new ≡ slice_set frames.old to (slice_index_or frames.old from []) }
{
    if from < to {
        let (front, back) = frames.split_at_mut(to);
        back[0] = front[from];
    } else if to < from {
        let (front, back) = frames.split_at_mut(from);
        front[to] = back[0];
    }
}
