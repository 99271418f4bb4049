//! Readers that give few bytes at once, writers that take few, and their faults.

use std::io::{self, ErrorKind, Read, Write};

/// What a reader meets beside its bytes.
#[derive(Drop)]
pub(crate) enum Trouble {
    /// Nothing: the input ends after its bytes.
    Nothing,
    /// A read after the bytes fails.
    Failure,
    /// A read after this many bytes is interrupted. The reads after that one go on, to the end of the input.
    Interruption(usize),
}

/// Gives its bytes, at most this many at once, and counts its reads.
#[derive(Drop)]
pub(crate) struct Feed<'a> {
    pub(crate) left: &'a [u8],
    at_once: usize,
    /// How many bytes it gives before a read is interrupted. The reads after that one go on.
    interrupted: Option<usize>,
    /// Whether a read after the bytes fails; if not, the input ends.
    fails: bool,
    pub(crate) reads: u64,
    given: u64,
}

impl<'a> Feed<'a> {
    pub(crate) fn new(left: &'a [u8], at_once: usize, trouble: &Trouble) -> Feed<'a> {
        let (interrupted, fails) = match trouble {
            Trouble::Nothing => (None, false),
            Trouble::Failure => (None, true),
            Trouble::Interruption(given) => (Some(*given), false),
        };
        Feed {
            left,
            at_once,
            interrupted,
            fails,
            reads: 0,
            given: 0,
        }
    }

    // Whether there were as few reads as there may be: each but the last brought at least one byte.
    pub(crate) fn has_few_reads(&self) -> bool {
        self.reads <= self.given.saturating_add(1)
    }
}

impl Read for Feed<'_> {
    fn read(&mut self, buf: &mut [u8]) -> io::Result<usize> {
        self.reads = self.reads.saturating_add(1);
        if self.interrupted == Some(0) {
            self.interrupted = None;
            return Err(io::Error::from(ErrorKind::Interrupted));
        }
        if self.left.is_empty() && self.fails {
            return Err(io::Error::from(ErrorKind::InvalidData));
        }
        let before = self.interrupted.unwrap_or(usize::MAX);
        let count = self.left.len().min(self.at_once).min(buf.len()).min(before);
        let (given, left) = self.left.split_at(count);
        buf[..count].copy_from_slice(given);
        self.left = left;
        if let Some(before) = &mut self.interrupted {
            *before = before.saturating_sub(count);
        }
        self.given = self.given.saturating_add(count as u64);
        Ok(count)
    }
}

/// What a write comes to when the room is full.
#[derive(Drop)]
pub(crate) enum Full {
    /// It takes no byte.
    TakesNone,
    /// It fails.
    Fails,
    /// It is interrupted, once; the writes after it take all.
    IsInterrupted,
}

/// Takes this many bytes in all, and at most this many at once.
#[derive(Drop)]
pub(crate) struct Sink {
    pub(crate) held: Vec<u8>,
    pub(crate) at_once: usize,
    pub(crate) room: usize,
    pub(crate) full: Full,
}

impl Write for Sink {
    fn write(&mut self, buf: &[u8]) -> io::Result<usize> {
        if self.room == 0 {
            return match self.full {
                Full::TakesNone => Ok(0),
                Full::Fails => Err(io::Error::from(ErrorKind::BrokenPipe)),
                Full::IsInterrupted => {
                    self.room = usize::MAX;
                    Err(io::Error::from(ErrorKind::Interrupted))
                }
            };
        }
        let count = buf.len().min(self.at_once).min(self.room);
        self.held.extend_from_slice(&buf[..count])?;
        self.room -= count;
        Ok(count)
    }

    fn flush(&mut self) -> io::Result<()> {
        Ok(())
    }
}
