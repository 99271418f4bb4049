//! Conversations over memory: whole, cut anywhere, and with frames that are none.

ghost use Rattle.std.specs.Prelude.{◌≤◌, IfOk, vec_len};
ghost use Rattle.pl_conn.specs.Solo.{HasDatabases};

use crate::connections::stop_of;
use crate::memory::{Input, Output, Telling, check, ended_in_refusal};
use pl_conn::{Cause, ConnFault, SoloPass, Source, converse};
use pl_core::{Db, Limits};
use std::alloc::Global;
use std::io::{self, BufReader, ErrorKind, Read};
use transcripts::table_text::table_named;
use transcripts::transcript::Stop;

/// The four frames of the stored run: a block is written to two copies, reported and pulled.
pub(crate) const FRAMES: &[u8] = b"\
\0\0\0\x37\0\0\0\x02\x22\x22\x22\x22\x22\x22\x22\x22\x22\x22\x22\x22\x22\x22\x22\x22\
\x01\0\0\0\0\0\0\0\x01\x01\
\0\0\0\0\0\0\0\0\x01\0\x01\0\0\0\x01\x01\0\0\0\0\0\0\0\x01\xaa\
\0\0\0\x37\0\0\0\x02\x22\x22\x22\x22\x22\x22\x22\x22\x22\x22\x22\x22\x22\x22\x22\x22\
\x01\0\0\0\0\0\0\0\x01\x01\
\x01\0\0\0\0\0\0\0\x01\0\x01\0\0\0\x01\x01\0\0\0\0\0\0\0\x01\xaa\
\0\0\0\x26\0\0\0\x02\x22\x22\x22\x22\x22\x22\x22\x22\x22\x22\x22\x22\x22\x22\x22\x22\
\x01\0\0\0\0\0\0\0\x01\x03\0\0\0\0\0\0\0\x01\
\0\0\0\x2c\0\0\0\x03\x33\x33\x33\x33\x33\x33\x33\x33\x33\x33\x33\x33\x33\x33\x33\x33\
\x02\0\0\0\0\0\0\0\x01\x05\0\0\xff\xff\0\0\0\0\0\0\0\x01\0\x10";

// Where each frame ends.
pub(crate) const ENDS: [usize; 4] = [59, 118, 160, 208];

/// The frames of their replies.
pub(crate) const REPLIES: &[u8] = b"\
\0\0\0\x01\0\0\0\0\x01\0\0\0\0\x01\0\
\0\0\0\x27\x01\0\0\0\0\0\0\0\x02\0\x01\0\0\0\x18\
\0\0\0\0\0\0\0\x01\0\x01\0\0\0\x01\x01\0\0\0\0\0\0\0\x01\xaa";

// Where the frame of each reply ends.
pub(crate) const REPLY_ENDS: [usize; 4] = [5, 10, 15, 58];

// A database with the start table and primary 2.
fn open(alloc: Global) -> Result<Db, Stop> {
    let limits = Limits {
        audit: 65_536,
        chunks: 16,
    };
    if !limits.are_valid() {
        return Err(Stop::Unread);
    }
    let table = table_named(alloc, "start")?;
    match Db::new(alloc, table, 2, limits) {
        Ok(db) => Ok(db),
        Err(_) => Err(Stop::NoMemory),
    }
}

// Opens one more database.
fn push_open(alloc: Global, dbs: &mut Vec<Db>) -> Result<(), Stop> {
    dbs.push(open(alloc)?)?;
    Ok(())
}

/// This many databases, 1 to 16, each with the start table and primary 2.
pub(crate) fn dbs_of(alloc: Global, count: usize) -> Result<Vec<Db>, Stop>
    ensures some { IfOk result (λ dbs. 1 ≤ vec_len dbs) }
    ensures few { IfOk result (λ dbs. vec_len dbs ≤ 16) }
{
    let mut dbs = Vec::new(alloc);
    for _ in 0..count {
        push_open(alloc, &mut dbs)?;
    }
    if dbs.is_empty() || dbs.len() > 16 {
        return Err(Stop::Unread);
    }
    Ok(dbs)
}

/// A pass with one database, under the number 1.
pub(crate) fn one_pass(alloc: Global) -> Result<SoloPass, Stop>
    ensures has { IfOk result (λ pass. HasDatabases pass) }
{
    Ok(SoloPass::new(dbs_of(alloc, 1)?, 1))
}

// The conversation of the pass over these bytes ends so, and writes this, if the writer takes so many bytes at once
// and so many in all.
fn talks_by(
    alloc: Global,
    input: Input<'_>,
    room: (usize, usize),
    pass: &mut SoloPass,
    end: Result<u64, ConnFault>,
    told: &[u8],
) -> Result<(), Stop>
    requires has { HasDatabases pass.old }
{
    let mut reader = input;
    let mut output = Output::new(alloc, room.0, room.1);
    let gate = Telling::new();
    let ended = converse(alloc, &mut reader, &mut output, &gate, pass);
    if ended_in_refusal(&ended) || gate.tells_refusal() || output.tells_refusal(alloc) {
        return Err(Stop::NoMemory);
    }
    check(ended == end && output.taken() == told)
}

// How many entries the first of the databases has.
fn entries_of(dbs: &[Db]) -> Option<u64> {
    let db = dbs.first()?;
    Some(db.audit_len())
}

/// The database of the pass has this many entries.
pub(crate) fn has_entries(pass: SoloPass, entries: u64) -> Result<(), Stop> {
    let dbs = pass.into_dbs();
    let count = entries_of(&dbs);
    drop(dbs);
    check(count == Some(entries))
}

// The same with a fresh database, which has this many entries then.
fn talks(
    alloc: Global,
    input: Input<'_>,
    room: (usize, usize),
    end: Result<u64, ConnFault>,
    told: &[u8],
    entries: u64,
) -> Result<(), Stop> {
    let mut pass = one_pass(alloc)?;
    let talked = talks_by(alloc, input, room, &mut pass, end, told);
    let counted = has_entries(pass, entries);
    talked?;
    counted
}

// How many of these places are reached with this many bytes.
pub(crate) fn whole(ends: &[usize], count: usize) -> u64 {
    let mut whole: u64 = 0;
    for end in ends {
        if *end <= count {
            whole = whole.saturating_add(1);
        }
    }
    whole
}

/// The replies to the frames of the run that are whole within this many bytes.
pub(crate) fn told_by(len: usize) -> &'static [u8] {
    let end = match whole(&ENDS, len) {
        0 => 0,
        1 => 5,
        2 => 10,
        3 => 15,
        _ => 58,
    };
    let (told, _) = REPLIES.split_at(REPLIES.len().min(end));
    told
}

// Bytes, how the conversation over them ends, and its replies.
type Case<'a> = (&'a [u8], Result<u64, ConnFault>, &'a [u8]);

// The conversation over the bytes, which are all there at once, ends so, without an entry.
fn ends_at_once(alloc: Global, case: &Case<'_>) -> Result<(), Stop> {
    let (left, end, told) = *case;
    let input = Input {
        left,
        at_once: 70_000,
        fails: false,
    };
    talks(alloc, input, (1_000, 1_000), end, told, 0)
}

fn end_at_once(alloc: Global, cases: &[Case<'_>]) -> Result<(), Stop> {
    for case in cases {
        ends_at_once(alloc, case)?;
    }
    Ok(())
}

const SHORT: ConnFault = ConnFault {
    cause: Cause::Short,
    answered: 0,
};

const TOO_LONG: ConnFault = ConnFault {
    cause: Cause::TooLong,
    answered: 0,
};

// A frame that is cut, one that is too long, and a write to copy 0 whose block has a record on page 0 and names
// partition 1.
const BROKEN_FRAMES: [Case<'static>; 3] = [
    (
        &[0, 0, 0, 30, 1, 2, 3, 4, 5, 6, 7, 8, 9, 10],
        Err(SHORT),
        &[],
    ),
    (&[0, 1, 0, 1, 0, 0, 0, 0], Err(TOO_LONG), &[]),
    (
        b"\
\0\0\0\x37\0\0\0\x02\x22\x22\x22\x22\x22\x22\x22\x22\x22\x22\x22\x22\x22\x22\x22\x22\
\x01\0\0\0\0\0\0\0\x01\x01\
\0\0\0\0\0\0\0\0\x01\0\x01\0\x01\0\x01\x01\0\0\0\0\0\0\0\x01\xaa",
        Ok(1),
        &[0, 0, 0, 2, 10, 14],
    ),
];

#[test]
fn converse_over_broken_frames(rt: HostRuntime) {
    let mut done = end_at_once(rt.alloc(), &BROKEN_FRAMES);
    if matches!(done, Err(Stop::NoMemory)) {
        done = end_at_once(rt.alloc(), &BROKEN_FRAMES);
    }
    assert!(&rt; done.is_ok());
}

// A frame whose body is this many zeros, with this length before it.
fn frame_of_zeros(alloc: Global, length: [u8; 4], count: usize) -> Result<Vec<u8>, Stop> {
    let mut frame = vec![in alloc; 0; 4 + count.min(100_000)]?;
    let (head, _) = frame.split_at_mut(4);
    head.copy_from_slice(&length);
    Ok(frame)
}

// The conversation over such a frame ends so.
fn zeros_end(
    alloc: Global,
    length: [u8; 4],
    count: usize,
    end: Result<u64, ConnFault>,
    told: &[u8],
) -> Result<(), Stop> {
    let frame = frame_of_zeros(alloc, length, count)?;
    ends_at_once(alloc, &(&frame, end, told))
}

// The longest body is read if all of it is there at once, and one byte more is too long.
fn longest_body(alloc: Global) -> Result<(), Stop> {
    zeros_end(alloc, [0, 1, 0, 0], 65_536, Ok(1), &[0, 0, 0, 2, 10, 2])?;
    zeros_end(alloc, [0, 1, 0, 1], 65_537, Err(TOO_LONG), &[])
}

#[test]
fn longest_body_is_buffered(rt: HostRuntime) {
    let mut done = longest_body(rt.alloc());
    if matches!(done, Err(Stop::NoMemory)) {
        done = longest_body(rt.alloc());
    }
    assert!(&rt; done.is_ok());
}

// Takes two of the bytes that the reader holds, if there are two.
fn took_two<R: Source>(reader: &mut R) -> bool {
    if reader.buffered().len() < 2 {
        return false;
    }
    reader.consume(2);
    true
}

// A buffered reader of four bytes, which is made again if memory is refused.
fn buffered_on<'a>(
    alloc: Global,
    bytes: &'a [u8],
    refused: &mut bool,
) -> io::Result<BufReader<&'a [u8]>> {
    let reader = BufReader::with_capacity(alloc, 4, bytes);
    if reader.is_ok() {
        return reader;
    }
    *refused = true;
    BufReader::with_capacity(alloc, 4, bytes)
}

// Reads to the end, and goes on after what was read if memory is refused. How many bytes come in all.
fn read_on<R: Read>(reader: &mut R, rest: &mut Vec<u8>, refused: &mut bool) -> io::Result<usize> {
    match reader.read_to_end(rest) {
        Err(error) if error.kind() == ErrorKind::OutOfMemory && !*refused => {
            *refused = true;
            let before = rest.len();
            Ok(reader.read_to_end(rest)?.saturating_add(before))
        }
        end => end,
    }
}

// What a buffered reader holds (`buffered`) comes next, and is gone once it is taken.
fn takes_buffered(alloc: Global) -> Result<(), Stop> {
    let mut refused = false;
    let bytes = [1, 2, 3, 4, 5, 6, 7];
    let mut reader = buffered_on(alloc, &bytes, &mut refused).map_err(stop_of)?;
    check(reader.buffered().is_empty())?;
    let mut one = [0];
    check(matches!(reader.read(&mut one), Ok(1)) && one == [1])?;
    check(reader.buffered() == [2, 3, 4].as_slice())?;
    check(took_two(&mut reader) && reader.buffered() == [4].as_slice())?;
    let mut rest = Vec::new(alloc);
    check(matches!(read_on(&mut reader, &mut rest, &mut refused), Ok(4)))?;
    check(rest.as_slice() == [4, 5, 6, 7].as_slice() && reader.buffered().is_empty())
}

#[test]
fn buffered_bytes_are_taken(rt: HostRuntime) {
    assert!(&rt; takes_buffered(rt.alloc()).is_ok());
}

// However few bytes come at once, and however many the reader holds, the replies are the same.
fn any_cut(alloc: Global) -> Result<(), Stop> {
    for at_once in 1..=208 {
        let input = Input {
            left: FRAMES,
            at_once,
            fails: false,
        };
        talks(alloc, input, (at_once, 1_000), Ok(4), REPLIES, 4)?;
    }
    Ok(())
}

#[test]
fn converse_any_cut(rt: HostRuntime) {
    let mut done = any_cut(rt.alloc());
    if matches!(done, Err(Stop::NoMemory)) {
        done = any_cut(rt.alloc());
    }
    assert!(&rt; done.is_ok());
}

// How a conversation ends whose input has this many bytes of the run and then ends, or fails.
fn end_of_cut(len: usize, fails: bool) -> Result<u64, ConnFault> {
    let answered = whole(&ENDS, len);
    let cause = if fails {
        Cause::Read
    } else if len == 0 || ENDS.contains(&len) {
        return Ok(answered);
    } else {
        Cause::Short
    };
    Err(ConnFault { cause, answered })
}

// Such a conversation.
fn cut_input(alloc: Global, len: usize, at_once: usize, fails: bool) -> Result<(), Stop> {
    let (left, _) = FRAMES.split_at(FRAMES.len().min(len));
    let input = Input {
        left,
        at_once,
        fails,
    };
    let end = end_of_cut(len, fails);
    talks(
        alloc,
        input,
        (1_000, 1_000),
        end,
        told_by(len),
        whole(&ENDS, len),
    )
}

fn cut_inputs(alloc: Global) -> Result<(), Stop> {
    for len in 0..=208 {
        cut_input(alloc, len, 1, false)?;
        cut_input(alloc, len, 1, true)?;
        cut_input(alloc, len, 50, false)?;
        cut_input(alloc, len, 50, true)?;
    }
    Ok(())
}

#[test]
fn input_cut_anywhere(rt: HostRuntime) {
    let mut done = cut_inputs(rt.alloc());
    if matches!(done, Err(Stop::NoMemory)) {
        done = cut_inputs(rt.alloc());
    }
    assert!(&rt; done.is_ok());
}

// When the writer takes this many bytes in all, and then fails. How many entries there are in the end.
fn cut_output(alloc: Global, room: usize, at_once: usize, entries: u64) -> Result<(), Stop> {
    let input = Input {
        left: FRAMES,
        at_once,
        fails: false,
    };
    let fault = ConnFault {
        cause: Cause::Write,
        answered: whole(&REPLY_ENDS, room),
    };
    let (told, _) = REPLIES.split_at(REPLIES.len().min(room));
    talks(alloc, input, (at_once, room), Err(fault), told, entries)
}

// The frames come one after the other, so that each reply is written before the next one is read, and
// one step was taken after those that are answered; or all at once, so that the replies go out
// together, after all of the steps.
fn cut_outputs(alloc: Global) -> Result<(), Stop> {
    for room in 0..58 {
        cut_output(alloc, room, 1, whole(&REPLY_ENDS, room).saturating_add(1))?;
        cut_output(alloc, room, 208, 4)?;
    }
    Ok(())
}

#[test]
fn output_cut_anywhere(rt: HostRuntime) {
    let mut done = cut_outputs(rt.alloc());
    if matches!(done, Err(Stop::NoMemory)) {
        done = cut_outputs(rt.alloc());
    }
    assert!(&rt; done.is_ok());
}

// A status of database 1.
const OF_DATABASE_1: [Case<'static>; 1] = [(
    b"\
\0\0\0\x1e\0\0\0\x02\x22\x22\x22\x22\x22\x22\x22\x22\x22\x22\x22\x22\x22\x22\x22\x22\
\x01\0\0\0\x01\0\0\0\x01\x07",
    Ok(1),
    &[0, 0, 0, 1, 9],
)];

#[test]
fn no_such_database(rt: HostRuntime) {
    let mut done = end_at_once(rt.alloc(), &OF_DATABASE_1);
    if matches!(done, Err(Stop::NoMemory)) {
        done = end_at_once(rt.alloc(), &OF_DATABASE_1);
    }
    assert!(&rt; done.is_ok());
}
