//! Readers and writers over memory, and a gate that reports whether memory was refused.

ghost use Rattle.std.specs.Prelude.{take};
ghost use Rattle.pl_conn.specs.Solo.{HasDatabases, SoloCall};

use pl_conn::{Cause, ConnFault, Gate, Solo, SoloPass, Source};
use pl_core::{Answer, Reply};
use pl_table::Request;
use pl_wire::{BodyFault, FrameFault, ReplyFault, read_reply};
use std::alloc::Global;
use std::env::Env;
use std::io::{self, ErrorKind, Read, Write};
use std::sync::atomic::{AtomicU64, Ordering};
use transcripts::transcript::Stop;

/// Whether it holds; if not, two calls that answer alike did not.
pub(crate) fn check(holds: bool) -> Result<(), Stop> {
    if holds { Ok(()) } else { Err(Stop::Changed) }
}

/// Whether the test runs under scripts/refuse-memory. Elsewhere nothing is taken for a refusal that is
/// not reported as one.
pub(crate) fn may_be_refused(rt: &impl Env) -> bool {
    let mut word = [0; 20];
    rt.var("REFUSE_AT", &mut word).is_ok() || rt.var("REFUSE_THREAD", &mut word).is_ok()
}

/// A reader that gives a few bytes at once, which are what it holds (`buffered`). At the end it fails, or has
/// no more.
#[derive(Drop)]
pub(crate) struct Input<'a> {
    pub(crate) left: &'a [u8],
    pub(crate) at_once: usize,
    pub(crate) fails: bool,
}

impl Read for Input<'_> {
    fn read(&mut self, buf: &mut [u8]) -> io::Result<usize> {
        let count = self.at_once.min(self.left.len()).min(buf.len());
        if self.fails && self.left.is_empty() {
            return Err(io::Error::from(ErrorKind::TimedOut));
        }
        let (now, later) = self.left.split_at(count);
        let (front, _) = buf.split_at_mut(count);
        front.copy_from_slice(now);
        self.left = later;
        Ok(count)
    }
}

impl Source for Input<'_> {
    ghost hand = { λ input. take input.at_once input.left.now };

    fn buffered(&self) -> &[u8] {
        let (now, _) = self.left.split_at(self.at_once.min(self.left.len()));
        now
    }

    fn consume(&mut self, count: usize) {
        let (_, later) = self.left.split_at(count);
        self.left = later;
    }
}

/// A writer that takes a few bytes at once, and this many in all.
#[derive(Drop)]
pub(crate) struct Output {
    /// What it took, and after it what it did not take of the write that failed.
    text: Vec<u8>,
    taken: usize,
    at_once: usize,
    room: usize,
    refused: bool,
}

impl Output {
    /// A writer that has taken nothing.
    pub(crate) fn new(alloc: Global, at_once: usize, room: usize) -> Output {
        Output {
            text: Vec::new(alloc),
            taken: 0,
            at_once,
            room,
            refused: false,
        }
    }

    /// What it took.
    pub(crate) fn taken(&self) -> &[u8] {
        let (taken, _) = self.text.split_at(self.taken.min(self.text.len()));
        taken
    }

    /// Whether memory was refused to it, or one of the replies that it was handed says so.
    pub(crate) fn tells_refusal(&self, alloc: Global) -> bool {
        self.refused || has_refusal(alloc, &self.text)
    }

    // Keeps the bytes.
    fn keep(&mut self, bytes: &[u8]) -> io::Result<()> {
        if self.text.extend_from_slice(bytes).is_err() {
            self.refused = true;
            return Err(io::Error::from(ErrorKind::OutOfMemory));
        }
        Ok(())
    }
}

impl Write for Output {
    fn write(&mut self, buf: &[u8]) -> io::Result<usize> {
        let count = self.at_once.min(self.room).min(buf.len());
        if count == 0 {
            self.keep(buf)?;
            return Err(io::Error::from(ErrorKind::BrokenPipe));
        }
        let (now, _) = buf.split_at(count);
        self.keep(now)?;
        self.taken = self.taken.saturating_add(count);
        self.room = self.room.saturating_sub(count);
        Ok(count)
    }

    fn flush(&mut self) -> io::Result<()> {
        Ok(())
    }
}

/// Whether the reader of a reply was refused memory.
pub(crate) fn is_refused(fault: ReplyFault) -> bool {
    matches!(
        fault,
        ReplyFault::Body(BodyFault::NoMemory) | ReplyFault::Frame(FrameFault::NoMemory)
    )
}

/// Whether one of the replies that the bytes begin with is NoMemory, or its reader is refused memory.
pub(crate) fn has_refusal(alloc: Global, bytes: &[u8]) -> bool {
    let mut left = bytes;
    for _ in 0..bytes.len() {
        match read_reply(alloc, &mut left) {
            Ok(Reply::NoMemory) => return true,
            Ok(_) => {}
            Err(fault) => return is_refused(fault),
        }
    }
    false
}

/// Whether a conversation ended since memory was refused.
pub(crate) fn ended_in_refusal(end: &Result<u64, ConnFault>) -> bool {
    matches!(
        end,
        Err(ConnFault {
            cause: Cause::NoMemory,
            ..
        })
    )
}

/// The gate of one caller, which reports in the end whether it replied NoMemory.
#[derive(Drop)]
pub(crate) struct Telling {
    refusals: AtomicU64,
}

impl Telling {
    /// A gate of which nothing was asked.
    pub(crate) fn new() -> Telling {
        Telling {
            refusals: AtomicU64::new(0),
        }
    }

    /// Whether it replied NoMemory.
    pub(crate) fn tells_refusal(&self) -> bool {
        self.refusals.load(Ordering::SeqCst) > 0
    }
}

impl Gate for Telling {
    type Pass = SoloPass;

    ghost owns = { λ _ pass. HasDatabases pass };

    ghost calls = { λ _. SoloCall };

    fn alloc(&self, pass: &SoloPass) -> Global {
        Solo.alloc(pass)
    }

    fn call_onto(&self, pass: &mut SoloPass, request: Request, page: &mut Vec<u8>) -> Answer {
        let answer = Solo.call_onto(pass, request, page);
        if matches!(answer, Answer::Whole(Reply::NoMemory)) {
            self.refusals.store(1, Ordering::SeqCst);
        }
        answer
    }
}
