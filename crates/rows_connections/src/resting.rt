//! Conversations that rest: over readers and writers that would wait.

ghost use Rattle.std.specs.Prelude.{IfOk};
ghost use Rattle.pl_conn.specs.Solo.{HasDatabases};

use crate::conversations::{ENDS, FRAMES, REPLIES, one_pass, told_by};
use crate::memory::{Telling, check, has_refusal};
use pl_conn::{Cause, Conversation, Rest, Room, SoloPass};
use std::alloc::Global;
use std::io::{self, ErrorKind, Read, Write};
use transcripts::transcript::Stop;

/// A reader that gives the bytes that came. After them it would wait, or the input ends, or it fails.
#[derive(Drop)]
pub(crate) struct Coming<'a> {
    pub(crate) left: &'a [u8],
    came: usize,
    pub(crate) is_over: bool,
    pub(crate) fails: bool,
}

impl<'a> Coming<'a> {
    // None of these has come.
    fn of(left: &'a [u8]) -> Coming<'a> {
        Coming {
            left,
            came: 0,
            is_over: false,
            fails: false,
        }
    }

    /// This many more bytes come, as far as there are any.
    pub(crate) fn come(&mut self, count: usize) {
        self.came = self.came.saturating_add(count).min(self.left.len());
    }
}

impl Read for Coming<'_> {
    fn read(&mut self, buf: &mut [u8]) -> io::Result<usize> {
        let count = self.came.min(self.left.len()).min(buf.len());
        if count == 0 && self.fails {
            return Err(io::Error::from(ErrorKind::TimedOut));
        }
        if count == 0 && !self.is_over {
            return Err(io::Error::from(ErrorKind::WouldBlock));
        }
        let (now, later) = self.left.split_at(count);
        let (front, _) = buf.split_at_mut(count);
        front.copy_from_slice(now);
        self.left = later;
        self.came = self.came.saturating_sub(count);
        Ok(count)
    }
}

/// A writer that has room for this many bytes, and after them would wait, or fails.
#[derive(Drop)]
pub(crate) struct Filling {
    /// What it took, and after it what it did not take of the write that failed.
    pub(crate) text: Vec<u8>,
    taken: usize,
    pub(crate) room: usize,
    is_refused: bool,
    pub(crate) fails: bool,
}

impl Filling {
    // It has taken nothing.
    fn new(alloc: Global, room: usize) -> Filling {
        Filling {
            text: Vec::new(alloc),
            taken: 0,
            room,
            is_refused: false,
            fails: false,
        }
    }

    /// What it took.
    pub(crate) fn taken(&self) -> &[u8] {
        let (taken, _) = self.text.split_at(self.taken.min(self.text.len()));
        taken
    }

    /// Forgets what it took.
    pub(crate) fn clear(&mut self) {
        self.text.clear();
        self.taken = 0;
    }

    // Keeps the bytes.
    fn keep(&mut self, bytes: &[u8]) -> io::Result<()> {
        if self.text.extend_from_slice(bytes).is_err() {
            self.is_refused = true;
            return Err(io::Error::from(ErrorKind::OutOfMemory));
        }
        Ok(())
    }
}

impl Write for Filling {
    fn write(&mut self, buf: &[u8]) -> io::Result<usize> {
        let count = self.room.min(buf.len());
        if count == 0 && self.fails {
            self.keep(buf)?;
            return Err(io::Error::from(ErrorKind::BrokenPipe));
        }
        if count == 0 {
            return Err(io::Error::from(ErrorKind::WouldBlock));
        }
        let (now, _) = buf.split_at(count);
        self.keep(now)?;
        self.taken = self.taken.saturating_add(count);
        self.room = self.room.saturating_sub(count);
        Ok(count)
    }

    fn flush(&mut self) -> io::Result<()> {
        Ok(())
    }
}

/// How many turns a conversation has at most before it rests.
const MANY: u32 = 1_000;

/// A conversation with all that it needs but its room.
#[derive(Drop)]
pub(crate) struct Talk<'a> {
    pub(crate) pass: SoloPass,
    pub(crate) talk: Conversation,
    pub(crate) reader: Coming<'a>,
    pub(crate) writer: Filling,
}

/// A conversation over these frames, of which nothing has come, whose writer has this much room.
pub(crate) fn talk_of(alloc: Global, frames: &[u8], room: usize) -> Result<Talk<'_>, Stop>
    ensures has { IfOk result (λ talk. HasDatabases talk.pass) }
{
    Ok(Talk {
        pass: one_pass(alloc)?,
        talk: Conversation::new(alloc),
        reader: Coming::of(frames),
        writer: Filling::new(alloc, room),
    })
}

// What comes of the end of a turn: what it rests for, or nothing if there is another turn.
fn rest_of(end: Result<Rest, Cause>) -> Result<Option<Rest>, Stop> {
    match end {
        Ok(Rest::Again) => Ok(None),
        Ok(rest) => Ok(Some(rest)),
        // The writer does not fail by itself: there was no memory for the replies that it did not take.
        Err(Cause::NoMemory | Cause::Write) => Err(Stop::NoMemory),
        Err(Cause::Short) => Err(Stop::Unread),
        Err(_) => Err(Stop::Changed),
    }
}

// One turn, of a gate that reports whether it lacked memory.
fn turn(at: &mut Talk<'_>, gate: &Telling, room: &mut Room) -> Result<Rest, Cause>
    requires has { HasDatabases at.old.pass }
    ensures has { HasDatabases at.new.pass }
{
    at.talk
        .resume(&mut at.reader, &mut at.writer, gate, &mut at.pass, room)
}

/// Turns, until one rests, or the conversation is over.
pub(crate) fn turns(at: &mut Talk<'_>, room: &mut Room) -> Result<Rest, Stop>
    requires has { HasDatabases at.old.pass }
    ensures has { HasDatabases at.new.pass }
{
    let gate = Telling::new();
    for _ in 0..MANY {
        let end = turn(at, &gate, room);
        if gate.tells_refusal() || at.writer.is_refused {
            return Err(Stop::NoMemory);
        }
        if let Some(rest) = rest_of(end)? {
            return Ok(rest);
        }
    }
    Err(Stop::Changed)
}

/// Turns, until one ends the conversation: for which cause.
pub(crate) fn cause_of(at: &mut Talk<'_>, room: &mut Room) -> Result<Cause, Stop>
    requires has { HasDatabases at.old.pass }
{
    let gate = Telling::new();
    for _ in 0..MANY {
        let end = turn(at, &gate, room);
        if gate.tells_refusal() || at.writer.is_refused {
            return Err(Stop::NoMemory);
        }
        match end {
            Ok(Rest::Over) => return Err(Stop::Changed),
            Ok(_) => {}
            Err(Cause::NoMemory) => return Err(Stop::NoMemory),
            Err(cause) => return Ok(cause),
        }
    }
    Err(Stop::Changed)
}

/// How a conversation went. If a reply that it wrote says that a body found no memory, of which the gate
/// knows nothing, it went wrong for that.
pub(crate) fn went(alloc: Global, writer: &Filling, done: Result<(), Stop>) -> Result<(), Stop> {
    if matches!(done, Err(Stop::Changed)) && has_refusal(alloc, &writer.text) {
        return Err(Stop::NoMemory);
    }
    done
}

// The frames come this many bytes at once: at each point the replies to those that are whole are written, and no
// more. In the end the input is over.
fn in_pieces(alloc: Global, at: &mut Talk<'_>, room: &mut Room, piece: usize) -> Result<(), Stop>
    requires has { HasDatabases at.old.pass }
    ensures has { HasDatabases at.new.pass }
{
    for _ in 0..=FRAMES.len() / piece.max(1) {
        at.reader.come(piece);
        let rest = turns(at, room)?;
        let came = FRAMES.len().saturating_sub(at.reader.left.len());
        check(rest == Rest::Input && at.writer.text.as_slice() == told_by(came))?;
    }
    at.reader.is_over = true;
    let rest = turns(at, room)?;
    check(rest == Rest::Over && at.writer.text.as_slice() == REPLIES)
}

// The input ends, after this many bytes of the frames.
fn is_over_at(alloc: Global, at: &mut Talk<'_>, room: &mut Room, place: usize) -> Result<(), Stop>
    requires has { HasDatabases at.old.pass }
{
    at.reader.left = &[];
    at.reader.is_over = true;
    let is_whole = place == 0 || ENDS.contains(&place);
    match turns(at, room) {
        Ok(rest) => check(is_whole && rest == Rest::Over),
        Err(Stop::Unread) => check(!is_whole),
        Err(stop) => Err(stop),
    }
}

// The frames come up to a place, and then the others, or the input ends there.
fn cut_at(
    alloc: Global,
    at: &mut Talk<'_>,
    room: &mut Room,
    place: usize,
    is_over: bool,
) -> Result<(), Stop>
    requires has { HasDatabases at.old.pass }
{
    at.reader.come(place);
    let rest = turns(at, room)?;
    check(rest == Rest::Input && at.writer.text.as_slice() == told_by(place))?;
    if is_over {
        return is_over_at(alloc, at, room, place);
    }
    at.reader.come(usize::MAX);
    let rest = turns(at, room)?;
    check(rest == Rest::Input && at.writer.text.as_slice() == REPLIES)
}

// The writer takes this many bytes at each turn. While a reply waits, no more is read.
fn in_turns_of(
    alloc: Global,
    at: &mut Talk<'_>,
    room: &mut Room,
    at_once: usize,
) -> Result<(), Stop>
    requires has { HasDatabases at.old.pass }
    ensures has { HasDatabases at.new.pass }
{
    at.reader.come(160);
    let rest = turns(at, room)?;
    check(rest == Rest::Output && at.reader.left.len() == 48 && at.writer.text.is_empty())?;
    at.reader.come(usize::MAX);
    for _ in 0..REPLIES.len() {
        at.writer.room = at_once;
        let rest = turns(at, room)?;
        check(Some(&*at.writer.text) == REPLIES.get(..at.writer.text.len()))?;
        check((at.reader.left.len() == 48) == (at.writer.text.len() < 15))?;
        if rest == Rest::Input {
            return check(at.writer.text.as_slice() == REPLIES);
        }
        check(rest == Rest::Output && at.writer.room == 0)?;
    }
    Err(Stop::Changed)
}

// The frames are there, and the writer takes this many bytes at each turn. If that goes wrong, what still waits is
// taken as well: it may say that a body found no memory.
fn taken_in_pieces(
    alloc: Global,
    at: &mut Talk<'_>,
    room: &mut Room,
    at_once: usize,
) -> Result<(), Stop>
    requires has { HasDatabases at.old.pass }
{
    let done = in_turns_of(alloc, at, room, at_once);
    if matches!(done, Err(Stop::Changed)) {
        at.writer.room = usize::MAX;
        turns(at, room)?;
    }
    done
}

/// How the stored run comes, and its replies are taken.
#[derive(Drop)]
enum Way {
    /// This many bytes come at once.
    Pieces(usize),
    /// Bytes come up to this place, and then the others, or the input is over.
    Cut(usize, bool),
    /// This many bytes are taken at each turn.
    Taken(usize),
}

// A conversation that goes this way.
fn goes(alloc: Global, room: &mut Room, way: &Way) -> Result<(), Stop> {
    let room_at_first = if matches!(way, Way::Taken(_)) {
        0
    } else {
        usize::MAX
    };
    let mut at = talk_of(alloc, FRAMES, room_at_first)?;
    let done = match way {
        Way::Pieces(piece) => in_pieces(alloc, &mut at, room, *piece),
        Way::Cut(place, is_over) => cut_at(alloc, &mut at, room, *place, *is_over),
        Way::Taken(at_once) => taken_in_pieces(alloc, &mut at, room, *at_once),
    };
    went(alloc, &at.writer, done)
}

// All cuts of the stored run, with one room for all conversations.
fn goes_each_way(alloc: Global, room: &mut Room) -> Result<(), Stop> {
    for piece in 1..=208 {
        goes(alloc, room, &Way::Pieces(piece))?;
    }
    for place in 0..=208 {
        goes(alloc, room, &Way::Cut(place, false))?;
        goes(alloc, room, &Way::Cut(place, true))?;
    }
    for at_once in 1..=58 {
        goes(alloc, room, &Way::Taken(at_once))?;
    }
    Ok(())
}

fn any_pieces(alloc: Global) -> Result<(), Stop> {
    let mut room = Room::new(alloc)?;
    goes_each_way(alloc, &mut room)
}

/// A conversation over a reader and a writer that would wait: however the frames are cut, and however the
/// replies are taken, the output is the same at the same points.
#[test]
fn conversation_in_any_pieces(rt: HostRuntime) {
    let mut done = any_pieces(rt.alloc());
    if matches!(done, Err(Stop::NoMemory)) {
        done = any_pieces(rt.alloc());
    }
    assert!(&rt; done.is_ok());
}
