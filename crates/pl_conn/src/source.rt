//! Readers that show what they have buffered.

ghost use Rattle.std.specs.Prelude.{◌≡◌, ◌≤◌, ℕ, List, IfSome, length, take};
ghost use Rattle.std.specs.Io.{StartsWith};
ghost use Rattle.std.specs.Io.Buffered.{reader_buffer};
ghost use Rattle.std.specs.Io.KnownBytes.{Consumes};

use std::alloc::Allocator;
use std::io::{BufRead, BufReader, Read};

/// A reader that says which bytes can be read without waiting, and lends them.
///
/// No promise rests on how many it shows, but that replies are written before a wait.
pub trait Source: Read {
    // The bytes that are buffered.
    ghost hand: { Self → List ℕ };

    /// The bytes that come next and are buffered. There may be more.
    fn buffered(&self) -> &[u8]
        // The buffered bytes.
        ensures value { result.now ≡ hand self.now }
        // Reads give these bytes next.
        ensures next { IfSome (Self.remaining self.now)
            (λ bytes. StartsWith bytes (hand self.now)) };

    /// Takes this many of the buffered bytes, as reads of them would.
    fn consume(&mut self, count: usize)
        // This many bytes are buffered.
        requires few { count ≤ length (hand self.old) }
        // The reader has lost this many of the buffered bytes, from the front.
        ensures taken { Consumes (Self.remaining self.old) (Self.remaining self.new)
            (take count (hand self.old)) };
}

impl<R: Read, A: Allocator> Source for BufReader<R, A> {
    ghost hand = { reader_buffer };

    fn buffered(&self) -> &[u8] {
        self.buffer()
    }

    fn consume(&mut self, count: usize) {
        BufRead::consume(self, count);
    }
}

impl Source for &[u8] {
    ghost use Rattle.std.specs.Prelude.{List, ℕ};

    ghost hand = { λ bytes. bytes.now };

    fn buffered(&self) -> &[u8] {
        self
    }

    fn consume(&mut self, count: usize) {
        *self = &self[count..];
    }
}
