//! The frames of all chunks, by number.

ghost use Rattle.std.specs.Prelude.{◌≡◌, ◌<◌, [], ◌∷◌, ◌++◌, length, IsOk, OnOk, OnErr, slice_index_or, slice_set};
ghost use Rattle.std.specs.Borrow.{sem};
ghost use Rattle.pl_arena.specs.Arena.{zeros};
ghost use Rattle.pl_arena.specs.Frames.{LendsPlace};
ghost use Rattle.pl_arena.specs.Packed.{HasRoom, with_copied_frame};

use crate::FRAME_SIZE;
use crate::chunk::{CHUNK_FRAMES, Chunk};
use std::alloc::{AllocError, Global};
use std::marker::Model;

/// Chunks of up to 64 frames, one after the other; each but the last has 64. A frame stays where it
/// is as long as the arena lives.
#[derive(Drop)]
pub(crate) struct Frames {
    alloc: Global,
    chunks: Vec<Chunk>,
}

impl Model for Frames {
    ghost use Rattle.std.specs.Prelude.{ℕ, List};
    ghost use Rattle.pl_arena.specs.Packed.{IsPacked, flat};

    ghost Value = { List (List ℕ) };

    ghost view = { λ f. flat f.chunks.items };

    ghost invariant = { λ f. IsPacked f.chunks.items };
}

impl Frames {
    /// No frame. It allocates nothing.
    pub(crate) fn new(alloc: Global) -> Frames
        ensures value { result ≡ [] }
    {
        Frames {
            alloc,
            chunks: Vec::new(alloc),
        }
    }

    /// Makes a frame of zeros more. A chunk is allocated only if the last has no room.
    pub(crate) fn push_zeros(&mut self) -> Result<(), AllocError>
        ensures ok { OnOk result (self.new ≡ self.old ++ zeros ∷ []) }
        ensures succeeds { HasRoom self.old → IsOk result }
        ensures err { OnErr result (self.new ≡ self.old) }
    {
        let count = self.chunks.len();
        if count > 0 && self.chunks[count - 1].has_room() {
            self.chunks[count - 1].push_zeros();
            return Ok(());
        }
        let mut chunk = Chunk::new(self.alloc)?;
        chunk.push_zeros();
        Ok(self.chunks.push(chunk)?)
    }

    /// The frame of the number.
    pub(crate) fn get(&self, i: usize) -> &[u8; FRAME_SIZE]
        requires within { i < length self.now }
        ensures value { result.now ≡ slice_index_or self.now i [] }
    {
        self.chunks[i / CHUNK_FRAMES].get(i % CHUNK_FRAMES)
    }

    /// The frame of the number, to be written.
    pub(crate) fn get_mut(&mut self, i: usize) -> &mut [u8; FRAME_SIZE]
        requires within { i < length self.old }
        ensures* writes_back { sem 𝓛 (LendsPlace self.entry i result) }
        ensures value { result.now ≡ slice_index_or self.old i [] }
    {
        let chunk = &mut self.chunks[i / CHUNK_FRAMES];
        chunk.get_mut(i % CHUNK_FRAMES)
    }

    /// Writes the bytes of the frame `from` into the frame `to`.
    pub(crate) fn copy(&mut self, from: usize, to: usize)
        requires from { from < length self.old }
        requires to { to < length self.old }
        ensures value { self.new ≡ slice_set self.old to (slice_index_or self.old from []) }
    {
        let (a, b) = (from / CHUNK_FRAMES, to / CHUNK_FRAMES);
        let (i, j) = (from % CHUNK_FRAMES, to % CHUNK_FRAMES);
        copy_among(&mut self.chunks, a, i, b, j);
    }
}

// Writes the frame `i` of the chunk `a` into the frame `j` of the chunk `b`, with nothing between the two.
fn copy_among(chunks: &mut [Chunk], a: usize, i: usize, b: usize, j: usize)
    requires from { (a < length chunks.old) × (i < length (slice_index_or chunks.old a [])) }
    requires to { (b < length chunks.old) × (j < length (slice_index_or chunks.old b [])) }
    ensures value { chunks.new ≡ with_copied_frame chunks.old a i b j }
{
    if a == b {
        chunks[b].copy(i, j);
    } else if a < b {
        let (front, back) = chunks.split_at_mut(b);
        let source = front[a].get(i);
        let target = back[0].get_mut(j);
        *target = *source;
    } else {
        let (front, back) = chunks.split_at_mut(a);
        let source = back[0].get(i);
        let target = front[b].get_mut(j);
        *target = *source;
    }
}
