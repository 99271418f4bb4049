//! Reads that fail, and input that is not read to its end.

use crate::plays::{answered, fresh_on, plays_all, room_on};
use pl_core::Db;
use pl_play::{FileFault, PlayFault, play, read_text};
use std::alloc::{AllocError, Global};
use std::io::{self, BufReader, ErrorKind, Read};
use std::process::Abort;

/// Gives this many zeros, and then fails at each read.
#[derive(Drop)]
struct Zeros {
    left: usize,
}

impl Read for Zeros {
    fn read(&mut self, buf: &mut [u8]) -> io::Result<usize> {
        let count = buf.len().min(self.left);
        if count == 0 && !buf.is_empty() {
            return Err(io::Error::from(ErrorKind::InvalidData));
        }
        buf[..count].fill(b'0');
        self.left -= count;
        Ok(count)
    }
}

/// This many empty lines, and after them this many digits of one more. Then each read fails.
#[derive(Clone, Copy, Drop)]
struct Given {
    lines: usize,
    digits: usize,
}

// This many empty lines.
fn feeds(alloc: Global, lines: usize) -> Result<Vec<u8>, AllocError> {
    vec![in alloc; b'\n'; lines]
}

// Plays the input on the database.
fn play_given(
    alloc: Global,
    given: Given,
    output: &mut Vec<u8>,
    db: &mut Db,
) -> Result<u64, PlayFault> {
    let feeds = feeds(alloc, given.lines)?;
    let input = feeds.as_slice().chain(Zeros { left: given.digits });
    let Ok(mut reader) = BufReader::with_capacity(alloc, 1, input) else {
        return Err(PlayFault::NoMemory);
    };
    play(alloc, &mut reader, output, db)
}

// The same. If memory is refused, what was not answered is played then, on the same database. How it ended, and after
// how many lines.
fn play_on(
    alloc: Global,
    given: Given,
    output: &mut Vec<u8>,
    db: &mut Db,
    refused: &mut bool,
) -> (Result<u64, PlayFault>, usize) {
    let end = play_given(alloc, given, output, db);
    if *refused || end != Err(PlayFault::NoMemory) {
        return (end, given.lines);
    }
    *refused = true;
    let left = Given {
        lines: given.lines.saturating_sub(answered(output)),
        ..given
    };
    (play_given(alloc, left, output, db), left.lines)
}

// What ends the input after this many lines: a read that fails, or the line of the digits, if it is too long.
fn ended_by(lines: usize, is_long: bool) -> PlayFault {
    if is_long {
        PlayFault::Long((lines as u64).saturating_add(1))
    } else {
        PlayFault::Read
    }
}

// Plays the input on a fresh database. Whether it ended as it has to.
fn ends_as(
    alloc: Global,
    given: Given,
    is_long: bool,
    output: &mut Vec<u8>,
    refused: &mut bool,
) -> Option<bool> {
    let mut db = fresh_on(alloc, refused)?;
    let (end, left) = play_on(alloc, given, output, &mut db, refused);
    Some(end == Err(ended_by(left, is_long)))
}

// This many empty lines are answered and this many digits read, before a read fails or the line of the digits is too long.
fn stops_at(rt: &impl Abort, alloc: Global, lines: u16, digits: usize, is_long: bool) {
    let given = Given {
        lines: usize::from(lines),
        digits,
    };
    let mut refused = false;
    let mut output = room_on(alloc, 5 * given.lines, &mut refused).expect(rt, "no room");
    let is_right = ends_as(alloc, given, is_long, &mut output, &mut refused);
    assert!(rt;
        is_right == Some(true) && output.len() == 5 * given.lines,
        "{lines} lines and {digits} digits"
    );
}

#[test]
fn a_failed_read_ends_it(rt: HostRuntime) {
    for lines in 0..4 {
        stops_at(&rt, rt.alloc(), lines, 0, false);
        stops_at(&rt, rt.alloc(), lines, 3, false);
    }
}

// The end of a line that is too long is not looked for.
#[test]
fn a_line_is_read_to_its_limit(rt: HostRuntime) {
    stops_at(&rt, rt.alloc(), 1, 131_072, false);
    stops_at(&rt, rt.alloc(), 1, 131_073, true);
}

// Reads a text of this many zeros, after which a read fails; and once more if memory is refused.
fn text_on(alloc: Global, len: usize, refused: &mut bool) -> Result<Vec<u8>, FileFault> {
    let read = read_text(alloc, Zeros { left: len });
    if *refused || !matches!(read, Err(FileFault::NoMemory)) {
        return read;
    }
    *refused = true;
    read_text(alloc, Zeros { left: len })
}

#[test]
fn a_text_is_read_to_its_limit(rt: HostRuntime) {
    let mut refused = false;
    let read = text_on(rt.alloc(), 65_506, &mut refused);
    assert!(rt; matches!(read, Err(FileFault::Read)));
    let read = text_on(rt.alloc(), 65_507, &mut refused);
    assert!(rt; matches!(read, Err(FileFault::Long)));
}

// This many empty lines, which are made again if memory is refused.
fn feeds_on(alloc: Global, lines: usize, refused: &mut bool) -> Result<Vec<u8>, AllocError> {
    let made = feeds(alloc, lines);
    if *refused || made.is_ok() {
        return made;
    }
    *refused = true;
    feeds(alloc, lines)
}

// Plays the lines on the database. What was not answered is played after a refusal. Whether all were answered.
fn answers_lines(
    alloc: Global,
    lines: &[u8],
    output: &mut Vec<u8>,
    db: &mut Db,
    refused: bool,
) -> bool {
    let end = plays_all(alloc, lines, output, db);
    if refused || end != Err(PlayFault::NoMemory) {
        return end == Ok(lines.len() as u64);
    }
    let (_, left) = lines.split_at(answered(output).min(lines.len()));
    plays_all(alloc, left, output, db) == Ok(left.len() as u64)
}

fn answers_more(
    alloc: Global,
    lines: &[u8],
    output: &mut Vec<u8>,
    refused: &mut bool,
) -> Option<bool> {
    let mut db = fresh_on(alloc, refused)?;
    Some(answers_lines(alloc, lines, output, &mut db, *refused))
}

#[test]
fn more_lines_than_the_audit_list_holds(rt: HostRuntime) {
    let mut refused = false;
    let feeds = feeds_on(rt.alloc(), 65_537, &mut refused).expect(&rt, "no lines");
    let mut output = room_on(rt.alloc(), 327_685, &mut refused).expect(&rt, "no room");
    let are_answered = answers_more(rt.alloc(), &feeds, &mut output, &mut refused);
    assert!(rt; are_answered == Some(true));
    assert!(rt; output.len() == 327_685);
}
