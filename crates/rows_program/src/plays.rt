//! A run of `play` over a reader, and one with a refused allocation.

use pl_core::Db;
use pl_play::{PlayFault, StartFault, play, start_db};
use std::alloc::{AllocError, Global};
use std::io::Write;

// Principal 2 may do what its role has.
const TABLE: &str = "[[principal]]
id = 2
token = \"22222222222222222222222222222222\"
[[row]]
verdict = \"allow\"
";

/// A database with the table of this text, and with primary 2.
pub(crate) fn db_of(alloc: Global, table: &str) -> Result<Db, StartFault> {
    start_db(alloc, table.as_bytes(), 2, 65_536)
}

/// Plays the lines, and returns how many were answered.
pub(crate) fn plays_all(
    alloc: Global,
    lines: &[u8],
    output: &mut impl Write,
    db: &mut Db,
) -> Result<u64, PlayFault> {
    let mut left = lines;
    play(alloc, &mut left, output, db)
}

// A database of which nothing was asked, with primary 2.
fn fresh(alloc: Global) -> Result<Db, StartFault> {
    db_of(alloc, TABLE)
}

/// A database of which nothing was asked, with primary 2. It is made again if memory is refused, unless it was before.
pub(crate) fn fresh_on(alloc: Global, refused: &mut bool) -> Option<Db> {
    match fresh(alloc) {
        Ok(db) => return Some(db),
        Err(StartFault::NoMemory) if !*refused => *refused = true,
        Err(_) => return None,
    }
    fresh(alloc).ok()
}

/// An output with room for this many bytes, so that no write of `play` is refused memory: it would not distinguish that from a
/// write that fails.
pub(crate) fn room_on(
    alloc: Global,
    room: usize,
    refused: &mut bool,
) -> Result<Vec<u8>, AllocError> {
    let output = Vec::with_capacity(alloc, room);
    if *refused || output.is_ok() {
        return output;
    }
    *refused = true;
    Vec::with_capacity(alloc, room)
}

/// How many bytes the answer to an empty line has: `0a01` and a line feed.
const ANSWER: usize = 5;

/// How many empty lines are answered by these bytes.
pub(crate) fn answered(output: &[u8]) -> usize {
    output.len() / ANSWER
}

// An empty line, and one on which principal 2 as primary reports LSN 0.
const LINES: &[u8] =
    b"\n0000000222222222222222222222222222222222010000000000000001030000000000000000\n";

// Plays the lines after this many of them. How many it answered.
fn play_after(
    alloc: Global,
    lines: usize,
    output: &mut Vec<u8>,
    db: &mut Db,
) -> Result<u64, PlayFault> {
    let (_, left) = LINES.split_at(lines.min(LINES.len()));
    plays_all(alloc, left, output, db)
}

// Whether memory was refused to it: it ended so, or the last reply says so.
fn is_refused(end: &Result<u64, PlayFault>, output: &[u8]) -> bool {
    *end == Err(PlayFault::NoMemory) || output.ends_with(b"\n06\n")
}

fn are_answers(output: &[u8]) -> bool {
    *output == *b"0a01\n00\n".as_slice()
}

// Plays the lines after those that were answered, on the same database. The report may have two entries then, since its
// step may have been taken even if its answer was not written.
fn answers_rest(alloc: Global, output: &mut Vec<u8>, db: &mut Db) -> bool {
    let before = answered(output).min(1);
    output.truncate(if before == 0 { 0 } else { ANSWER });
    let end = play_after(alloc, before, output, db);
    let lines = if before == 0 { 2 } else { 1 };
    end == Ok(lines) && are_answers(output) && matches!(db.audit_len(), 1 | 2)
}

// Plays both lines on the database. If memory is refused, those that were not answered are played then.
fn answers_both(alloc: Global, db: &mut Db, refused: &mut bool) -> Option<bool> {
    let mut output = room_on(alloc, 100, refused).ok()?;
    let end = play_after(alloc, 0, &mut output, db);
    if *refused || !is_refused(&end, &output) {
        return Some(end == Ok(2) && are_answers(&output) && db.audit_len() == 1);
    }
    Some(answers_rest(alloc, &mut output, db))
}

fn answers_all(alloc: Global) -> Option<bool> {
    let mut refused = false;
    let mut db = fresh_on(alloc, &mut refused)?;
    answers_both(alloc, &mut db, &mut refused)
}

#[test]
fn one_failed_allocation(rt: HostRuntime) {
    assert!(rt; answers_all(rt.alloc()) == Some(true));
}
