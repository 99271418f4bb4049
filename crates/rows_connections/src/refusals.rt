//! The conversation of the stored run when memory is refused once: it goes on with what was not answered,
//! on the same database.

ghost use Rattle.std.specs.Prelude.{◌≡◌, IfOk, vec_len};
ghost use Rattle.std.specs.List.{All};
ghost use Rattle.pl_conn.specs.Desks.{ArePassesOf};

use crate::conversations::{FRAMES, REPLIES, dbs_of, one_pass};
use crate::memory::{Input, check};
use crate::talking::{TURNS, last_of};
use pl_conn::{Cause, ConnFault, Desks, Gate, Passes, Solo, SoloPass, converse};
use pl_core::Db;
use std::alloc::Global;
use std::io::{self, ErrorKind, Write};
use std::sync::Wait;
use transcripts::transcript::Stop;

/// A writer that needs no memory.
#[derive(Drop)]
struct Told {
    bytes: [u8; 128],
    len: usize,
}

impl Told {
    fn new() -> Told {
        Told {
            bytes: [0; 128],
            len: 0,
        }
    }

    fn all(&self) -> &[u8] {
        let (told, _) = self.bytes.split_at(self.len.min(128));
        told
    }
}

impl Write for Told {
    fn write(&mut self, buf: &[u8]) -> io::Result<usize> {
        let (_, room) = self.bytes.split_at_mut(self.len.min(128));
        let count = room.len().min(buf.len());
        if count == 0 {
            return Err(io::Error::from(ErrorKind::WriteZero));
        }
        let (now, _) = buf.split_at(count);
        let (front, _) = room.split_at_mut(count);
        front.copy_from_slice(now);
        self.len = self.len.saturating_add(count);
        Ok(count)
    }

    fn flush(&mut self) -> io::Result<()> {
        Ok(())
    }
}

/// What is asked once more: the frames from one place of the stored run to another, and those from a third
/// to the end.
type Frames = (usize, usize, usize);

/// These, the place in the replies of the run from which on theirs are, and how many entries there are in
/// the end, at least and at most.
type Again = (Frames, usize, (u64, u64));

/// What was answered if one of the four frames was replied NoMemory, and what is asked once more: that
/// frame, and those that are denied without it.
const REFUSED: [(&[u8], Again); 4] = [
    (
        b"\
\0\0\0\x01\x06\0\0\0\x01\0\0\0\0\x0c\x05\x03\0\x06\0\0\0\0\0\0\0\0\
\0\0\0\x0c\x05\x03\0\x01\0\0\0\0\0\0\0\0",
        ((0, 59, 118), 5, (6, 6)),
    ),
    (
        b"\
\0\0\0\x01\0\0\0\0\x01\x06\0\0\0\x0c\x05\x03\0\x06\0\0\0\0\0\0\0\0\
\0\0\0\x0c\x05\x03\0\x01\0\0\0\0\0\0\0\0",
        ((59, 118, 118), 5, (6, 6)),
    ),
    (
        b"\
\0\0\0\x01\0\0\0\0\x01\0\0\0\0\x01\x06\0\0\0\x0c\x05\x03\0\x01\0\0\0\0\0\0\0\0",
        ((118, 118, 118), 10, (5, 5)),
    ),
    (
        b"\
\0\0\0\x01\0\0\0\0\x01\0\0\0\0\x01\0\0\0\0\x01\x06",
        ((160, 160, 160), 15, (4, 4)),
    ),
];

/// What is asked once more if the conversation ended with this many replies: all frames after these. The
/// next one may have had its step.
const ENDED: [Again; 5] = [
    ((0, 0, 0), 0, (4, 5)),
    ((59, 59, 59), 5, (4, 5)),
    ((118, 118, 118), 10, (4, 5)),
    ((160, 160, 160), 15, (4, 5)),
    ((208, 208, 208), 58, (4, 4)),
];

// A conversation over these frames. How it ended, and what was reported.
fn asks<G: Gate>(
    alloc: Global,
    frames: &[u8],
    at_once: usize,
    gate: &G,
    pass: &mut G::Pass,
) -> (Result<u64, ConnFault>, Told)
    requires own { G.owns gate.now pass.old }
    ensures own { G.owns gate.now pass.new }
{
    let mut reader = Input {
        left: frames,
        at_once,
        fails: false,
    };
    let mut told = Told::new();
    let end = converse(alloc, &mut reader, &mut told, gate, pass);
    (end, told)
}

// What is asked once more, by how the conversation ended and what was reported.
fn again_of(end: &Result<u64, ConnFault>, told: &[u8]) -> Result<Option<Again>, Stop> {
    match end {
        Ok(4) if told == REPLIES => Ok(None),
        Ok(4) => again_after(told).map(Some),
        Err(
            ConnFault {
                cause: Cause::NoMemory,
                answered,
            },
        ) => again_from(*answered, told).map(Some),
        _ => Err(Stop::Changed),
    }
}

// What is asked once more after a reply NoMemory.
fn again_after(told: &[u8]) -> Result<Again, Stop> {
    for (replies, again) in &REFUSED {
        if told == *replies {
            return Ok(*again);
        }
    }
    Err(Stop::Changed)
}

// What is asked once more if it ended with this many replies, which are those of the run.
fn again_from(answered: u64, told: &[u8]) -> Result<Again, Stop> {
    let again = *ENDED.get(answered as usize).ok_or(Stop::Changed)?;
    let (_, replied, _) = again;
    let (wanted, _) = REPLIES.split_at(replied.min(REPLIES.len()));
    check(told == wanted)?;
    Ok(again)
}

// The frames that are asked once more.
fn frames_again(alloc: Global, again: Frames) -> Result<Vec<u8>, Stop> {
    let (from, to, after) = again;
    let mut frames = Vec::with_capacity(alloc, 208)?;
    frames.extend_from_slice(FRAMES.get(from..to).ok_or(Stop::Unread)?)?;
    frames.extend_from_slice(FRAMES.get(after..).ok_or(Stop::Unread)?)?;
    Ok(frames)
}

// Holds the conversation, and a second one over what was refused in the first, which has the replies of
// the stored run. How many entries there are then, at least and at most, if there was a second.
fn goes_on<G: Gate>(
    alloc: Global,
    at_once: usize,
    gate: &G,
    pass: &mut G::Pass,
) -> Result<Option<(u64, u64)>, Stop>
    requires own { G.owns gate.now pass.old }
    ensures own { G.owns gate.now pass.new }
{
    let (end, told) = asks(alloc, FRAMES, at_once, gate, pass);
    let Some((again, replied, entries)) = again_of(&end, told.all())? else {
        return Ok(None);
    };
    let frames = frames_again(alloc, again)?;
    let (end, told) = asks(alloc, &frames, at_once, gate, pass);
    check(end.is_ok() && Some(told.all()) == REPLIES.get(replied..))?;
    Ok(Some(entries))
}

// Whether the first of the databases has the block hardened, and this many entries, at least and at most.
fn is_hardened(dbs: &[Db], entries: (u64, u64)) -> bool {
    let Some(db) = dbs.first() else {
        return false;
    };
    let (least, most) = entries;
    let count = db.audit_len();
    db.hard() == 1 && db.log().counts() == (0, 1) && least <= count && count <= most
}

// The database of the pass has the block hardened, and this many entries.
fn ends_hardened(pass: SoloPass, entries: (u64, u64)) -> Result<(), Stop> {
    let dbs = pass.into_dbs();
    let holds = is_hardened(&dbs, entries);
    drop(dbs);
    check(holds)
}

// Over one caller's gate. In the end the block is hardened, whatever was refused.
fn goes_on_alone(alloc: Global, at_once: usize) -> Result<bool, Stop> {
    let mut pass = one_pass(alloc)?;
    let more = goes_on(alloc, at_once, &Solo, &mut pass);
    let entries = match &more {
        Ok(Some(entries)) => *entries,
        _ => (4, 4),
    };
    let ended = ends_hardened(pass, entries);
    let more = more?.is_some();
    ended?;
    Ok(more)
}

fn goes_on_with_last<R: Wait>(
    alloc: Global,
    at_once: usize,
    desks: &Desks<R>,
    mut passes: Vec<Passes>,
) -> Result<bool, Stop>
    requires of { All (ArePassesOf desks.now) passes.items }
{
    let mut pass = last_of(desks, &mut passes)?;
    Ok(goes_on(alloc, at_once, desks, &mut pass)?.is_some())
}

fn goes_on_at_desk<R: Wait + Drop>(rt: R, alloc: Global, at_once: usize) -> Result<bool, Stop> {
    let (desks, passes) = Desks::new(alloc, rt, dbs_of(alloc, 1)?, 1, TURNS)?;
    goes_on_with_last(alloc, at_once, &desks, passes)
}

// Both, over frames that come this many bytes at once. How many of them met a refusal.
fn goes_on_twice<R: Wait + Drop>(rt: R, alloc: Global, at_once: usize) -> Result<u64, Stop> {
    let alone = goes_on_alone(alloc, at_once)?;
    let at_desk = goes_on_at_desk(rt, alloc, at_once)?;
    Ok(u64::from(alone).saturating_add(u64::from(at_desk)))
}

// The same, once more if memory was refused to the test itself or to what it opens.
fn goes_on_in_pieces<R: Wait + Drop + Copy>(
    rt: R,
    alloc: Global,
    at_once: usize,
) -> Result<u64, Stop> {
    match goes_on_twice(rt, alloc, at_once) {
        Err(Stop::NoMemory) => Ok(goes_on_twice(rt, alloc, at_once)?.saturating_add(1)),
        met => met,
    }
}

/// The frames of the stored run are all there at once. A refusal is replied NoMemory, or ends the conversation
/// after the frames that it answered; what was not answered is asked once more.
#[test]
fn stored_run_goes_on(rt: HostRuntime) {
    let alloc = rt.alloc();
    assert!(&rt; matches!(goes_on_in_pieces(rt, alloc, 208), Ok(0 | 1)));
}

/// The same if they come byte by byte.
#[test]
fn stored_run_goes_on_by_bytes(rt: HostRuntime) {
    let alloc = rt.alloc();
    assert!(&rt; matches!(goes_on_in_pieces(rt, alloc, 1), Ok(0 | 1)));
}
