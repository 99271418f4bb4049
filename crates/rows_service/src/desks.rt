//! Desks: several passes of one database, in one thread.

ghost use Rattle.std.specs.Prelude.{◌≤◌, IfOk};
ghost use Rattle.std.specs.List.{All};
ghost use Rattle.pl_desk.specs.Passes.{IsOf};

use crate::opened_desks::{TURNS, desk_of, desk_over, entries_of, give_up, last_of, note, open_on};
use pl_core::{Db, Reply};
use pl_desk::{Desk, Pass};
use pl_table::{Act, Request};
use std::alloc::Global;
use std::process::Abort;
use std::sync::Wait;
use transcripts::asking::{head_of, request_of};
use transcripts::reply_text::push_reply;
use transcripts::transcript::Stop;

/// A status, which needs no memory.
pub(crate) fn status() -> Result<Request, Stop> {
    let head = head_of(0, ["2", "22", "primary", "1"])?;
    Request::new(head, Act::Status).ok_or(Stop::Unread)
}

// The request of the line, in which `BLOCK` is a block with the number as its LSN and as its byte.
fn asked_by(alloc: Global, line: &str, number: u64) -> Result<Option<Request>, Stop> {
    let block = format!(in alloc; "{number}:{number:02x}")?;
    let line = line.replace(alloc, "BLOCK", &block)?;
    let words: Vec<&str> = line.split_whitespace().collect(alloc)?;
    request_of(alloc, 0, &words)
}

// The reply to the request of the line. An error is that memory was refused.
fn reply_to(
    rt: &impl Wait,
    alloc: Global,
    desk: &Desk,
    pass: &mut Pass,
    line: &str,
    number: u64,
) -> Result<Reply, Stop>
    requires of { IsOf desk.now pass.old }
    ensures of { IsOf desk.now pass.new }
{
    let Some(request) = asked_by(alloc, line, number)? else {
        return Err(Stop::Unread);
    };
    match desk.call(rt, pass, request) {
        Reply::NoMemory => Err(Stop::NoMemory),
        reply => Ok(reply),
    }
}

fn text_of(alloc: Global, reply: &Reply) -> Result<String, Stop> {
    let mut text = String::new(alloc);
    push_reply(&mut text, reply)?;
    Ok(text)
}

// The same, and once more if memory is refused.
fn text_on(alloc: Global, reply: &Reply, refused: &mut bool) -> Result<String, Stop> {
    match text_of(alloc, reply) {
        Ok(text) => Ok(text),
        Err(stop) => {
            note(stop, refused)?;
            text_of(alloc, reply)
        }
    }
}

// The reply to the request of the line, which is asked again, in its place, if memory is refused to
// it or to its words.
fn reply_on(
    rt: &impl Wait,
    alloc: Global,
    desk: &Desk,
    pass: &mut Pass,
    line: &str,
    number: u64,
    refused: &mut bool,
) -> Result<Reply, Stop>
    requires of { IsOf desk.now pass.old }
    ensures of { IsOf desk.now pass.new }
{
    match reply_to(rt, alloc, desk, pass, line, number) {
        Ok(reply) => Ok(reply),
        Err(stop) => {
            note(stop, refused)?;
            reply_to(rt, alloc, desk, pass, line, number)
        }
    }
}

/// The reply to the request of the line for the number, as words. If memory is refused, the request is asked again in
/// its place, unless memory was refused before. An error is that it was refused again.
pub(crate) fn ask(
    rt: &impl Wait,
    alloc: Global,
    desk: &Desk,
    pass: &mut Pass,
    line: &str,
    number: u64,
    refused: &mut bool,
) -> Result<String, Stop>
    requires of { IsOf desk.now pass.old }
    ensures of { IsOf desk.now pass.new }
{
    let reply = reply_on(rt, alloc, desk, pass, line, number, refused)?;
    text_on(alloc, &reply, refused)
}

// The words are those wanted.
fn compare(rt: &impl Abort, line: &str, text: &str, wanted: &str) {
    assert!(rt; text.trim() == wanted.trim(), "{line}, not {text}");
}

// The line is answered as it says.
fn play_line<R: Wait + Abort>(
    rt: &R,
    alloc: Global,
    desk: &Desk,
    pass: &mut Pass,
    line: &str,
    refused: &mut bool,
) -> Result<(), Stop>
    requires of { IsOf desk.now pass.old }
    ensures of { IsOf desk.now pass.new }
{
    let Some((asked, wanted)) = line.split_once('=') else {
        return Err(Stop::Unread);
    };
    let text = ask(rt, alloc, desk, pass, asked, 0, refused)?;
    compare(rt, line, &text, wanted);
    Ok(())
}

/// Each line is answered as it says.
pub(crate) fn play<R: Wait + Abort>(
    rt: &R,
    alloc: Global,
    desk: &Desk,
    pass: &mut Pass,
    row: &str,
    refused: &mut bool,
) -> Result<(), Stop>
    requires of { IsOf desk.now pass.old }
    ensures of { IsOf desk.now pass.new }
{
    for line in row.lines() {
        play_line(rt, alloc, desk, pass, line, refused)?;
    }
    Ok(())
}

// Plays a row of the last pass, and returns its number and the pass.
fn play_last<R: Wait + Abort>(
    rt: &R,
    alloc: Global,
    desk: &Desk,
    mut passes: Vec<Pass>,
    row: &str,
    refused: &mut bool,
) -> Result<(u64, Pass), Stop>
    requires of { All (IsOf desk.now) passes.items }
    ensures of { IfOk result (λ ends. IsOf desk.now ends.1) }
{
    let mut pass = last_of(desk, &mut passes)?;
    let number = Desk::number(&pass);
    play(rt, alloc, desk, &mut pass, row, refused)?;
    Ok((number, pass))
}

// Plays a row of the last pass of the desk. Its number, and how many entries there are in the end.
fn ends_at<R: Wait + Abort>(
    rt: &R,
    alloc: Global,
    desk: Desk,
    passes: Vec<Pass>,
    row: &str,
    refused: &mut bool,
) -> Result<(u64, u64), Stop>
    requires of { All (IsOf desk) passes.items }
{
    let (number, pass) = play_last(rt, alloc, &desk, passes, row, refused)?;
    let entries = entries_of(desk, pass)?;
    Ok((number, entries))
}

// The same of a desk of this many seats.
fn ends_of<R: Wait + Abort>(
    rt: &R,
    alloc: Global,
    seats: u32,
    row: &str,
    refused: &mut bool,
) -> Result<(u64, u64), Stop>
    requires seats { 1 ≤ seats }
{
    let (desk, passes) = desk_of(alloc, 65_536, seats, TURNS, refused)?;
    ends_at(rt, alloc, desk, passes, row, refused)
}

const DESK_OF_ONE_SEAT: &str = "\
2 22 primary 1 write 1:aa 0        = Done
2 22 primary 1 write 1:aa 1        = Done
2 22 primary 1 report 1            = Done
3 33 secondary 1 pull 0 65535 1 16 = Blocks 2 1:aa
";

#[test]
fn desk_of_one_seat(rt: HostRuntime) {
    let ends = ends_of(&rt, rt.alloc(), 1, DESK_OF_ONE_SEAT, &mut false);
    assert!(&rt; matches!(ends, Ok((1, 4))));
}

/// A desk of 65 seats, called through the last of them, and closed.
#[test]
fn desk_of_65_seats(rt: HostRuntime) {
    let ends = ends_of(&rt, rt.alloc(), 65, DESK_OF_ONE_SEAT, &mut false);
    assert!(&rt; matches!(ends, Ok((65, 4))));
}

// This many statuses, each with its reply.
fn statuses(alloc: Global, count: u32) -> Result<String, Stop> {
    let mut row = String::new(alloc);
    for _ in 0..count {
        row.push_str("2 22 primary 1 status = Status 1 2 0 0 0\n")?;
    }
    Ok(row)
}

// The same, and once more if memory is refused.
fn statuses_on(alloc: Global, count: u32, refused: &mut bool) -> Result<String, Stop> {
    match statuses(alloc, count) {
        Ok(row) => Ok(row),
        Err(stop) => {
            note(stop, refused)?;
            statuses(alloc, count)
        }
    }
}

fn ends_of_statuses<R: Wait + Abort>(
    rt: &R,
    alloc: Global,
    count: u32,
) -> Result<(u64, u64), Stop> {
    let mut refused = false;
    let row = statuses_on(alloc, count, &mut refused)?;
    ends_of(rt, alloc, 1, &row, &mut refused)
}

/// A desk gives its database back however many calls it had.
#[test]
fn desk_closes_after_many_calls(rt: HostRuntime) {
    let ends = ends_of_statuses(&rt, rt.alloc(), 1_100);
    assert!(&rt; matches!(ends, Ok((1, 1_100))));
}

/// A block is hardened.
pub(crate) const HARDENS: &str = "\
2 22 primary 1 write 1:aa 0 = Done
2 22 primary 1 write 1:aa 1 = Done
2 22 primary 1 report 1     = Done
";

const PULLS: &str = "3 33 secondary 1 pull 0 65535 1 16 = Blocks 2 1:aa";

const FAILS_OVER: &str = "1 11 operator 1 failover 5 = Done";

const IS_LATE: &str = "2 22 primary 1 status = Denied A2 2";

// Plays a row of one pass, and one of another that has met it.
fn play_before<R: Wait + Abort>(
    rt: &R,
    alloc: Global,
    desk: &Desk,
    mut first: Pass,
    rows: [&str; 2],
    pass: &mut Pass,
    refused: &mut bool,
) -> Result<(), Stop>
    requires first { IsOf desk.now first }
    requires of { IsOf desk.now pass.old }
    ensures of { IsOf desk.now pass.new }
{
    let [before, after] = rows;
    play(rt, alloc, desk, &mut first, before, refused)?;
    desk.meet(pass, first);
    play(rt, alloc, desk, pass, after, refused)
}

// Plays the rows of three passes, of which one meets the two others.
fn play_passes<R: Wait + Abort>(
    rt: &R,
    alloc: Global,
    desk: &Desk,
    mut passes: Vec<Pass>,
    refused: &mut bool,
) -> Result<Pass, Stop>
    requires of { All (IsOf desk.now) passes.items }
    ensures of { IfOk result (λ pass. IsOf desk.now pass) }
{
    let last = last_of(desk, &mut passes)?;
    let mut pass = last_of(desk, &mut passes)?;
    let first = last_of(desk, &mut passes)?;
    play_before(rt, alloc, desk, first, [HARDENS, PULLS], &mut pass, refused)?;
    play_before(
        rt,
        alloc,
        desk,
        last,
        [FAILS_OVER, IS_LATE],
        &mut pass,
        refused,
    )?;
    Ok(pass)
}

// Plays a row of three passes that meet, and returns how many entries there are in the end.
fn play_three<R: Wait + Abort>(rt: &R, alloc: Global, refused: &mut bool) -> Result<u64, Stop> {
    let (desk, passes) = desk_of(alloc, 65_536, 3, TURNS, refused)?;
    let pass = play_passes(rt, alloc, &desk, passes, refused)?;
    entries_of(desk, pass)
}

#[test]
fn passes_that_meet(rt: HostRuntime) {
    let entries = play_three(&rt, rt.alloc(), &mut false);
    assert!(&rt; matches!(entries, Ok(6)));
}

// What the reply to a status comes to.
fn status_end(reply: &Reply) -> Result<(), Stop> {
    match reply {
        Reply::Status { .. } => Ok(()),
        Reply::NoMemory => Err(Stop::NoMemory),
        _ => Err(Stop::Changed),
    }
}

// Enters a status, and once more if memory is refused.
fn enter_status(db: &mut Db, refused: &mut bool) -> Result<(), Stop> {
    match status_end(&db.step(1, status()?)) {
        Ok(()) => Ok(()),
        Err(stop) => {
            note(stop, refused)?;
            status_end(&db.step(1, status()?))
        }
    }
}

// A database of one entry.
fn db_of_one_entry(alloc: Global, refused: &mut bool) -> Result<Db, Stop> {
    let mut db = open_on(alloc, 65_536, refused)?;
    match enter_status(&mut db, refused) {
        Ok(()) => Ok(db),
        Err(stop) => {
            give_up(db);
            Err(stop)
        }
    }
}

// Opens a desk of such a database, and closes it again. The number of its last pass, and how many entries
// there are then.
fn ends_of_one_entry<R: Wait + Abort>(rt: &R, alloc: Global) -> Result<(u64, u64), Stop> {
    let mut refused = false;
    let db = db_of_one_entry(alloc, &mut refused)?;
    let (desk, passes) = desk_over(alloc, db, 2, TURNS, &mut refused)?;
    ends_at(rt, alloc, desk, passes, "", &mut refused)
}

#[test]
fn database_comes_back(rt: HostRuntime) {
    let ends = ends_of_one_entry(&rt, rt.alloc());
    assert!(&rt; matches!(ends, Ok((2, 1))));
}
