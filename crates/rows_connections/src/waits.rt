//! When replies are written: before each wait for bytes, and before too many of them wait.

ghost use Rattle.std.specs.Prelude.{⊤, take};

use crate::memory::{check, ended_in_refusal};
use pl_conn::{Cause, ConnFault, Conversation, Gate, Rest, Room, Source, converse};
use pl_core::{Answer, Reply};
use pl_table::Request;
use std::alloc::Global;
use std::io::{self, ErrorKind, Read, Write};
use std::sync::atomic::{AtomicU64, Ordering};
use transcripts::transcript::Stop;

/// A status of principal 2.
const STATUS: [u8; 34] = [
    0, 0, 0, 30, 0, 0, 0, 2, 34, 34, 34, 34, 34, 34, 34, 34, 34, 34, 34, 34, 34, 34, 34, 34, 1, 0,
    0, 0, 0, 0, 0, 0, 1, 7,
];

/// The frame of the reply to it.
const REPLY_BYTES: u64 = 37;

/// How many of these replies wait at most: 256 KiB and one reply more.
const MOST_WAITING: u64 = 7_085;

/// What a gate, a reader and a writer exchange.
#[derive(Drop)]
struct Tally {
    /// How many requests were handed to the gate.
    calls: AtomicU64,
    /// How many bytes of replies were written.
    written: AtomicU64,
    /// How often the reader had to wait.
    waits: AtomicU64,
    /// How often it had to wait while there were replies that were not written.
    late: AtomicU64,
}

impl Tally {
    fn new() -> Tally {
        Tally {
            calls: AtomicU64::new(0),
            written: AtomicU64::new(0),
            waits: AtomicU64::new(0),
            late: AtomicU64::new(0),
        }
    }

    // A wait for bytes: each reply that the gate gave has to be written.
    fn wait(&self) {
        add(&self.waits, 1);
        if self.waiting() > 0 {
            add(&self.late, 1);
        }
    }

    // How many replies are not written whole.
    fn waiting(&self) -> u64 {
        let whole = self.written.load(Ordering::SeqCst) / REPLY_BYTES;
        self.calls.load(Ordering::SeqCst).saturating_sub(whole)
    }
}

fn add(word: &AtomicU64, more: u64) {
    word.store(
        word.load(Ordering::SeqCst).saturating_add(more),
        Ordering::SeqCst,
    );
}

/// A gate that counts its calls and replies a status.
#[derive(Drop)]
struct Counting<'a> {
    alloc: Global,
    tally: &'a Tally,
}

impl Gate for Counting<'_> {
    type Pass = u64;

    ghost owns = { λ _ _. ⊤ };

    ghost calls = { λ _ _ _ _ _. ⊤ };

    fn alloc(&self, _pass: &u64) -> Global {
        self.alloc
    }

    fn call_onto(&self, _pass: &mut u64, _request: Request, _page: &mut Vec<u8>) -> Answer {
        add(&self.tally.calls, 1);
        Answer::Whole(Reply::Status {
            epoch: 1,
            primary: 2,
            hard: 0,
            pending: 0,
            landing: 0,
        })
    }
}

/// A reader to which a few bytes come whenever it has to wait for them.
#[derive(Drop)]
struct Coming<'a> {
    left: &'a [u8],
    /// How many of them have come.
    hand: usize,
    /// How many come at once.
    piece: usize,
    tally: &'a Tally,
}

impl Read for Coming<'_> {
    fn read(&mut self, buf: &mut [u8]) -> io::Result<usize> {
        if self.hand == 0 {
            self.tally.wait();
            self.hand = self.piece.min(self.left.len());
        }
        let count = self.hand.min(self.left.len()).min(buf.len());
        let (now, later) = self.left.split_at(count);
        let (front, _) = buf.split_at_mut(count);
        front.copy_from_slice(now);
        self.left = later;
        self.hand -= count;
        Ok(count)
    }
}

impl Source for Coming<'_> {
    ghost hand = { λ coming. take coming.hand coming.left.now };

    fn buffered(&self) -> &[u8] {
        let (now, _) = self.left.split_at(self.hand.min(self.left.len()));
        now
    }

    fn consume(&mut self, count: usize) {
        let (_, later) = self.left.split_at(count);
        self.left = later;
        self.hand = self.hand.saturating_sub(count);
    }
}

/// A writer that takes this many bytes, and then fails.
#[derive(Drop)]
struct Filling<'a> {
    room: usize,
    tally: &'a Tally,
}

impl Write for Filling<'_> {
    fn write(&mut self, buf: &[u8]) -> io::Result<usize> {
        let count = self.room.min(buf.len());
        if count == 0 {
            return Err(io::Error::from(ErrorKind::BrokenPipe));
        }
        self.room -= count;
        add(&self.tally.written, count as u64);
        Ok(count)
    }

    fn flush(&mut self) -> io::Result<()> {
        Ok(())
    }
}

// This many statuses, as frames.
fn frames_of(alloc: Global, count: usize) -> Result<Vec<u8>, Stop> {
    let mut frames = Vec::new(alloc);
    for _ in 0..count {
        frames.extend_from_slice(&STATUS)?;
    }
    Ok(frames)
}

// A conversation over these frames, of which this many bytes come at once, with a writer that has this much room.
fn talk(
    alloc: Global,
    frames: &[u8],
    piece: usize,
    room: usize,
    tally: &Tally,
) -> Result<Result<u64, ConnFault>, Stop> {
    let mut reader = Coming {
        left: frames,
        hand: 0,
        piece,
        tally,
    };
    let mut writer = Filling { room, tally };
    let mut pass = 0;
    let end = converse(
        alloc,
        &mut reader,
        &mut writer,
        &Counting { alloc, tally },
        &mut pass,
    );
    if ended_in_refusal(&end) {
        return Err(Stop::NoMemory);
    }
    Ok(end)
}

// Twelve frames, of which this many bytes come at once: at no wait there are replies that are not written.
fn answers_in_time(alloc: Global, frames: &[u8], piece: usize) -> Result<(), Stop> {
    let tally = Tally::new();
    let end = talk(alloc, frames, piece, usize::MAX, &tally)?;
    check(matches!(end, Ok(12)) && tally.waiting() == 0)?;
    // Each piece comes by a wait.
    let waits = tally.waits.load(Ordering::SeqCst);
    check(waits.saturating_mul(piece as u64) >= frames.len() as u64)?;
    check(tally.late.load(Ordering::SeqCst) == 0)
}

fn answers_all_in_time(alloc: Global) -> Result<(), Stop> {
    let frames = frames_of(alloc, 12)?;
    for piece in 1..=408 {
        answers_in_time(alloc, &frames, piece)?;
    }
    Ok(())
}

/// Twelve frames that come in pieces of any length, cut anywhere: whenever the reader has to wait, the
/// replies to all frames before are written, also if a part of the next one has come.
#[test]
fn replies_before_each_wait(rt: HostRuntime) {
    let mut done = answers_all_in_time(rt.alloc());
    if matches!(done, Err(Stop::NoMemory)) {
        done = answers_all_in_time(rt.alloc());
    }
    assert!(&rt; done.is_ok());
}

// When the writer takes this many bytes of the replies to these frames, which are all there at once.
fn stops_soon(alloc: Global, frames: &[u8], room: usize) -> Result<(), Stop> {
    let tally = Tally::new();
    let end = talk(alloc, frames, frames.len(), room, &tally)?;
    let wanted = ConnFault {
        cause: Cause::Write,
        answered: room as u64 / REPLY_BYTES,
    };
    check(matches!(end, Err(fault) if fault == wanted))?;
    check(tally.waiting() <= MOST_WAITING)
}

/// How many turns a conversation has at most.
const MANY: u32 = 1_000;

// The turns of a conversation over these frames, to its end.
fn turns(
    alloc: Global,
    frames: &[u8],
    room: usize,
    tally: &Tally,
) -> Result<Result<Rest, Cause>, Stop> {
    let mut turning = Room::new(alloc)?;
    let mut talk = Conversation::new(alloc);
    let mut reader = Coming {
        left: frames,
        hand: 0,
        piece: frames.len(),
        tally,
    };
    let mut writer = Filling { room, tally };
    let mut pass = 0;
    for _ in 0..MANY {
        match talk.resume(
            &mut reader,
            &mut writer,
            &Counting { alloc, tally },
            &mut pass,
            &mut turning,
        ) {
            // The next read shows whether the input is over.
            Ok(Rest::Again | Rest::Input) => {}
            Err(Cause::NoMemory) => return Err(Stop::NoMemory),
            end => return Ok(end),
        }
    }
    Err(Stop::Changed)
}

// The same of turns. All that the writer took is written.
fn turns_stop_soon(alloc: Global, frames: &[u8], room: usize) -> Result<(), Stop> {
    let tally = Tally::new();
    let end = turns(alloc, frames, room, &tally)?;
    check(matches!(end, Err(Cause::Write)) && tally.waiting() <= MOST_WAITING)?;
    check(tally.written.load(Ordering::SeqCst) == room as u64)
}

// If the writer takes all, the turns answer all, and the conversation is over.
fn turns_end(alloc: Global, frames: &[u8], count: u64) -> Result<(), Stop> {
    let tally = Tally::new();
    let end = turns(alloc, frames, usize::MAX, &tally)?;
    check(matches!(end, Ok(Rest::Over)) && tally.waiting() == 0)?;
    check(tally.calls.load(Ordering::SeqCst) == count)
}

fn stops_at_each(alloc: Global) -> Result<(), Stop> {
    let frames = frames_of(alloc, 20_000)?;
    for room in [0, 36, 37, 100_000, 262_144, 262_182, 600_000] {
        stops_soon(alloc, &frames, room)?;
        turns_stop_soon(alloc, &frames, room)?;
    }
    turns_end(alloc, &frames, 20_000)
}

/// Twenty thousand frames that are all there at once, and a writer that fails: after the answered ones no
/// more requests were handed to the gate than those whose replies wait, 256 KiB and one reply more. So too if the
/// conversation rests.
#[test]
fn steps_before_a_failed_write(rt: HostRuntime) {
    let mut done = stops_at_each(rt.alloc());
    if matches!(done, Err(Stop::NoMemory)) {
        done = stops_at_each(rt.alloc());
    }
    assert!(&rt; done.is_ok());
}
