//! Conversations that rest, of each operation: cut at each byte, side by side, all at once; and readers and writers that fail.

ghost use Rattle.pl_conn.specs.Solo.{HasDatabases};

use crate::conversations::{
    ENDS, FRAMES, REPLIES, REPLY_ENDS, has_entries, told_by as told_at, whole,
};
use crate::memory::check;
use crate::resting::{Talk, cause_of, talk_of, turns, went};
use crate::talking::{Told, told_by};
use crate::talks::ALL_OPERATIONS;
use pl_conn::{Cause, Rest, Room};
use pl_wire::body_in;
use std::alloc::Global;
use transcripts::transcript::Stop;

/// The frame that the bytes begin with.
pub(crate) fn first_frame(bytes: &[u8]) -> Result<&[u8], Stop> {
    let body = body_in(bytes).ok_or(Stop::Unread)?;
    bytes
        .get(..body.len().saturating_add(4))
        .ok_or(Stop::Unread)
}

// How many bytes the longest of these frames has.
fn longest_frame(frames: &[u8], count: u64) -> Result<usize, Stop> {
    let (mut left, mut longest) = (frames, 0);
    for _ in 0..count {
        let frame = first_frame(left)?;
        longest = frame.len().max(longest);
        left = left.get(frame.len()..).ok_or(Stop::Unread)?;
    }
    Ok(longest)
}

// This many bytes more come. The conversation waits for others then, and has written this, which is taken.
fn tells(
    alloc: Global,
    at: &mut Talk<'_>,
    room: &mut Room,
    piece: usize,
    wanted: &[u8],
) -> Result<(), Stop>
    requires has { HasDatabases at.old.pass }
    ensures has { HasDatabases at.new.pass }
{
    at.reader.come(piece);
    let rest = turns(at, room)?;
    check(rest == Rest::Input && at.writer.text.as_slice() == wanted)?;
    at.writer.clear();
    Ok(())
}

// The next frame of this length comes in three pieces, whose first one has this many bytes, and its reply follows the last.
fn comes_in_pieces(
    alloc: Global,
    at: &mut Talk<'_>,
    room: &mut Room,
    len: usize,
    first: usize,
    reply: &[u8],
) -> Result<(), Stop>
    requires has { HasDatabases at.old.pass }
    ensures has { HasDatabases at.new.pass }
{
    let second = len.saturating_sub(first) / 2;
    tells(alloc, at, room, first, &[])?;
    tells(alloc, at, room, second, &[])?;
    let third = len.saturating_sub(first).saturating_sub(second);
    tells(alloc, at, room, third, reply)
}

// Each frame comes so, cut after this many bytes, or after so many more than it has. Then the input is over.
fn all_come_in_pieces(
    alloc: Global,
    at: &mut Talk<'_>,
    room: &mut Room,
    told: &Told,
    cut: usize,
) -> Result<(), Stop>
    requires has { HasDatabases at.old.pass }
{
    let mut replies = told.replies.as_slice();
    for _ in 0..told.count {
        let len = first_frame(at.reader.left)?.len();
        let reply = first_frame(replies)?;
        comes_in_pieces(alloc, at, room, len, cut % len.max(1), reply)?;
        replies = replies.get(reply.len()..).ok_or(Stop::Unread)?;
    }
    at.reader.is_over = true;
    check(at.reader.left.is_empty())?;
    ends_with(alloc, at, room, &[])
}

fn cut_after(alloc: Global, room: &mut Room, told: &Told, cut: usize) -> Result<(), Stop> {
    let mut at = talk_of(alloc, &told.requests, usize::MAX)?;
    let done = all_come_in_pieces(alloc, &mut at, room, told, cut);
    went(alloc, &at.writer, done)
}

/// The longest frame.
const LONGEST: &str = "1 11 operator 1 set_table spaces 65506 = Denied C7 3";

/// How many bytes of it come at once.
const AT_ONCE: usize = 181;

// A frame comes so: with any number of such pieces unread the next one is read.
fn comes_in_many_pieces(
    alloc: Global,
    at: &mut Talk<'_>,
    room: &mut Room,
    told: &Told,
) -> Result<(), Stop>
    requires has { HasDatabases at.old.pass }
{
    for _ in 0..told.requests.len() / AT_ONCE {
        tells(alloc, at, room, AT_ONCE, &[])?;
    }
    tells(alloc, at, room, AT_ONCE, &told.replies)
}

fn longest_in_pieces(alloc: Global, room: &mut Room) -> Result<(), Stop> {
    let told = told_by(alloc, LONGEST)?;
    let mut at = talk_of(alloc, &told.requests, usize::MAX)?;
    let done = comes_in_many_pieces(alloc, &mut at, room, &told);
    went(alloc, &at.writer, done)
}

fn cut_anywhere(alloc: Global) -> Result<(), Stop> {
    let told = told_by(alloc, ALL_OPERATIONS)?;
    let mut room = Room::new(alloc)?;
    for cut in 0..longest_frame(&told.requests, told.count)? {
        cut_after(alloc, &mut room, &told, cut)?;
    }
    longest_in_pieces(alloc, &mut room)
}

/// Each of the eleven operations, in two and in three pieces, cut at each byte, and the longest frame in hundreds of pieces:
/// nothing is replied before the last piece, and the reply after it.
#[test]
fn operations_cut_anywhere(rt: HostRuntime) {
    let mut done = cut_anywhere(rt.alloc());
    if matches!(done, Err(Stop::NoMemory)) {
        done = cut_anywhere(rt.alloc());
    }
    assert!(&rt; done.is_ok());
}

// The stored run comes up to this place. The replies to the frames that are whole are written.
fn comes_up_to(alloc: Global, at: &mut Talk<'_>, room: &mut Room, place: usize) -> Result<(), Stop>
    requires has { HasDatabases at.old.pass }
    ensures has { HasDatabases at.new.pass }
{
    let came = FRAMES.len().saturating_sub(at.reader.left.len());
    at.reader.come(place.saturating_sub(came));
    let rest = turns(at, room)?;
    check(rest == Rest::Input && at.writer.text.as_slice() == told_at(place))
}

// Two conversations, each of which rests at a place before either goes on.
fn both_rest(
    alloc: Global,
    one: &mut Talk<'_>,
    other: &mut Talk<'_>,
    room: &mut Room,
    places: (usize, usize),
) -> Result<(), Stop>
    requires one { HasDatabases one.old.pass }
    requires other { HasDatabases other.old.pass }
{
    comes_up_to(alloc, one, room, places.0)?;
    comes_up_to(alloc, other, room, places.1)?;
    comes_up_to(alloc, one, room, FRAMES.len())?;
    comes_up_to(alloc, other, room, FRAMES.len())
}

fn beside_each_other(alloc: Global, room: &mut Room, places: (usize, usize)) -> Result<(), Stop> {
    let mut one = talk_of(alloc, FRAMES, usize::MAX)?;
    let mut other = talk_of(alloc, FRAMES, usize::MAX)?;
    let done = both_rest(alloc, &mut one, &mut other, room, places);
    went(alloc, &one.writer, went(alloc, &other.writer, done))
}

fn all_beside_each_other(alloc: Global) -> Result<(), Stop> {
    let mut room = Room::new(alloc)?;
    for place in 0..=208 {
        beside_each_other(alloc, &mut room, (place, 208_usize.saturating_sub(place)))?;
        beside_each_other(alloc, &mut room, (place, place))?;
    }
    Ok(())
}

/// Two conversations that share a room, and are both inside a frame: each has its own bytes.
#[test]
fn two_inside_a_frame(rt: HostRuntime) {
    let mut done = all_beside_each_other(rt.alloc());
    if matches!(done, Err(Stop::NoMemory)) {
        done = all_beside_each_other(rt.alloc());
    }
    assert!(&rt; done.is_ok());
}

// The conversation ends for this cause, when it has written this, and its database has this many entries.
fn ends_for(
    alloc: Global,
    at: Talk<'_>,
    room: &mut Room,
    cause: Cause,
    told: &[u8],
    entries: u64,
) -> Result<(), Stop>
    requires has { HasDatabases at.pass }
{
    let mut at = at;
    let ended = cause_of(&mut at, room)?;
    let done = check(ended == cause && at.writer.taken() == told);
    went(alloc, &at.writer, done)?;
    let Talk {
        pass,
        talk,
        reader,
        writer,
    } = at;
    drop((talk, reader));
    went(alloc, &writer, has_entries(pass, entries))
}

// The reader fails after this many bytes: what is whole is answered.
fn reader_fails(alloc: Global, room: &mut Room, place: usize) -> Result<(), Stop> {
    let mut at = talk_of(alloc, FRAMES, usize::MAX)?;
    at.reader.come(place);
    at.reader.fails = true;
    let entries = whole(&ENDS, place);
    ends_for(alloc, at, room, Cause::Read, told_at(place), entries)
}

// The writer fails after this many bytes. All frames are there, and each is answered before the replies are written.
fn writer_fails(alloc: Global, room: &mut Room, place: usize) -> Result<(), Stop> {
    let mut at = talk_of(alloc, FRAMES, place)?;
    at.reader.come(usize::MAX);
    at.writer.fails = true;
    let told = REPLIES.get(..place).ok_or(Stop::Unread)?;
    ends_for(alloc, at, room, Cause::Write, told, 4)
}

fn all_fail(alloc: Global) -> Result<(), Stop> {
    let mut room = Room::new(alloc)?;
    for place in 0..=208 {
        reader_fails(alloc, &mut room, place)?;
    }
    for place in 0..58 {
        writer_fails(alloc, &mut room, place)?;
    }
    Ok(())
}

/// Readers and writers that fail after any number of bytes: the cause, what is written, and how many requests were answered.
#[test]
fn turns_that_fail(rt: HostRuntime) {
    let mut done = all_fail(rt.alloc());
    if matches!(done, Err(Stop::NoMemory)) {
        done = all_fail(rt.alloc());
    }
    assert!(&rt; done.is_ok());
}

/// Texts whose frames are all there, and after which nothing comes.
const ALL_AT_ONCE: [&str; 2] = [
    // A turn writes some thirty pages four times, at most.
    "1..1000 | 3 33 secondary 1 get 0 0         = Page 0",
    // Each reply has more bytes than may wait together.
    "\
1..16 | 2 22 primary 1 write LARGE 0       = Done
1..16 | 2 22 primary 1 write LARGE 1       = Done
2 22 primary 1 report 16                   = Done
1..9 | 3 33 secondary 1 pull 0 65535 1 16  = Blocks 17 \
 1:8192*01,8192*01,8192*01,8142*01 2:8192*02,8192*02,8192*02,8142*02 \
 3:8192*03,8192*03,8192*03,8142*03 4:8192*04,8192*04,8192*04,8142*04 \
 5:8192*05,8192*05,8192*05,8142*05 6:8192*06,8192*06,8192*06,8142*06 \
 7:8192*07,8192*07,8192*07,8142*07 8:8192*08,8192*08,8192*08,8142*08 \
 9:8192*09,8192*09,8192*09,8142*09 10:8192*0a,8192*0a,8192*0a,8142*0a \
 11:8192*0b,8192*0b,8192*0b,8142*0b 12:8192*0c,8192*0c,8192*0c,8142*0c \
 13:8192*0d,8192*0d,8192*0d,8142*0d 14:8192*0e,8192*0e,8192*0e,8142*0e \
 15:8192*0f,8192*0f,8192*0f,8142*0f 16:8192*10,8192*10,8192*10,8142*10",
];

// The conversation comes to its end, and has written this.
fn ends_with(alloc: Global, at: &mut Talk<'_>, room: &mut Room, told: &[u8]) -> Result<(), Stop>
    requires has { HasDatabases at.old.pass }
{
    let rest = turns(at, room)?;
    check(rest == Rest::Over && at.writer.taken() == told)
}

// The writer takes nothing at first, so that all replies that may wait together do, and then it takes them all.
fn waits_and_ends(
    alloc: Global,
    at: &mut Talk<'_>,
    room: &mut Room,
    told: &[u8],
) -> Result<(), Stop>
    requires has { HasDatabases at.old.pass }
{
    let rest = turns(at, room)?;
    check(rest == Rest::Output && at.writer.taken().is_empty())?;
    at.writer.room = usize::MAX;
    ends_with(alloc, at, room, told)
}

// All frames are there, and the input is over: each has its reply.
fn comes_at_once(alloc: Global, room: &mut Room, told: &Told) -> Result<(), Stop> {
    let mut at = talk_of(alloc, &told.requests, 0)?;
    at.reader.come(usize::MAX);
    at.reader.is_over = true;
    let done = waits_and_ends(alloc, &mut at, room, &told.replies);
    went(alloc, &at.writer, done)
}

fn all_come_at_once(alloc: Global) -> Result<(), Stop> {
    let mut room = Room::new(alloc)?;
    for text in ALL_AT_ONCE {
        let told = told_by(alloc, text)?;
        comes_at_once(alloc, &mut room, &told)?;
    }
    Ok(())
}

/// A peer that closes its sending side behind 1,000 requests, and behind a burst of pulls, and reads late: turns that do not
/// write all that was read are followed by others.
#[test]
fn closed_behind_many_requests(rt: HostRuntime) {
    let mut done = all_come_at_once(rt.alloc());
    if matches!(done, Err(Stop::NoMemory)) {
        done = all_come_at_once(rt.alloc());
    }
    assert!(&rt; done.is_ok());
}
