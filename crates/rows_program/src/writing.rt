//! Writes that fail or take a part.

use crate::plays::{answered, fresh_on, plays_all};
use pl_core::Db;
use pl_play::PlayFault;
use std::alloc::Global;
use std::io::{self, ErrorKind, Write};
use std::process::Abort;

/// Takes at most `at_once` bytes a write. The write after the first `before` fails, and those
/// after it do not. It needs no memory, and fails when it is full.
#[derive(Drop)]
struct Pipe {
    bytes: [u8; 16],
    len: usize,
    at_once: usize,
    before: Option<usize>,
}

impl Pipe {
    // What it took.
    fn held(&self) -> &[u8] {
        let (held, _) = self.bytes.split_at(self.len.min(16));
        held
    }
}

impl Write for Pipe {
    fn write(&mut self, buf: &[u8]) -> io::Result<usize> {
        match self.before {
            Some(0) => {
                self.before = None;
                return Err(io::Error::from(ErrorKind::BrokenPipe));
            }
            Some(before) => self.before = Some(before - 1),
            None => {}
        }
        let (_, room) = self.bytes.split_at_mut(self.len.min(16));
        let count = buf.len().min(self.at_once);
        if count > room.len() {
            return Err(io::Error::from(ErrorKind::WriteZero));
        }
        let (front, _) = room.split_at_mut(count);
        let (now, _) = buf.split_at(count);
        front.copy_from_slice(now);
        self.len = self.len.saturating_add(count);
        Ok(count)
    }

    fn flush(&mut self) -> io::Result<()> {
        Ok(())
    }
}

const LINES: &[u8] = b"\n\n";

// Plays the two empty lines on the database. If memory is refused, those that were not answered are played then. How it
// ended, and how many lines it was to answer.
fn play_both(
    alloc: Global,
    pipe: &mut Pipe,
    db: &mut Db,
    refused: bool,
) -> (Result<u64, PlayFault>, u64) {
    let end = plays_all(alloc, LINES, pipe, db);
    if refused || end != Err(PlayFault::NoMemory) {
        return (end, 2);
    }
    let (_, left) = LINES.split_at(answered(pipe.held()).min(LINES.len()));
    (plays_all(alloc, left, pipe, db), left.len() as u64)
}

// The same on a fresh database.
fn play_on(alloc: Global, pipe: &mut Pipe) -> Option<(Result<u64, PlayFault>, u64)> {
    let mut refused = false;
    let mut db = fresh_on(alloc, &mut refused)?;
    Some(play_both(alloc, pipe, &mut db, refused))
}

// Two empty lines are answered by ten bytes: this many of them are held in the end.
fn holds(rt: &impl Abort, alloc: Global, at_once: usize, before: usize, held: usize) {
    let mut pipe = Pipe {
        bytes: [0; 16],
        len: 0,
        at_once,
        before: Some(before),
    };
    let (end, count) = play_on(alloc, &mut pipe).expect(rt, "no database");
    let ended = if held == 10 {
        Ok(count)
    } else {
        Err(PlayFault::Write)
    };
    assert!(rt;
        end == ended && pipe.held().len() == held && b"0a01\n0a01\n".starts_with(pipe.held()),
        "{before} writes of {at_once} bytes"
    );
}

#[test]
fn a_failed_write_ends_it(rt: HostRuntime) {
    for before in 0..=10 {
        holds(&rt, rt.alloc(), 1, before, before);
    }
    for (before, held) in [(0, 0), (1, 3), (2, 5), (3, 8), (4, 10)] {
        holds(&rt, rt.alloc(), 3, before, held);
    }
    for before in 0..=2 {
        holds(&rt, rt.alloc(), 5, before, 5 * before);
    }
    holds(&rt, rt.alloc(), 0, 1, 0);
}
