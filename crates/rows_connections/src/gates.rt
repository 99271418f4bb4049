//! Gates: a page server that materialises a partition, and desks that are asked by two passes.

ghost use Rattle.std.specs.Prelude.{◌≤◌};
ghost use Rattle.std.specs.List.{All};
ghost use Rattle.pl_conn.specs.Desks.{ArePassesOf};
ghost use Rattle.pl_conn.specs.Solo.{HasDatabases};

use crate::conversations::{dbs_of, one_pass};
use crate::memory::{Telling, check};
use crate::talking::{TURNS, last_of};
use pl_conn::{Desks, Gate, PageServer, Passes, SoloPass, Worked, materialise};
use pl_core::Reply;
use pl_table::Request;
use std::alloc::Global;
use std::sync::Wait;
use transcripts::asking::request_of;
use transcripts::reply_text::push_reply;
use transcripts::transcript::Stop;

/// A page server that makes three rounds.
const PAGER: PageServer = PageServer {
    principal: 4,
    token: [0x44; 16],
    partition: 0,
    rounds: 3,
};

/// How many blocks are hardened.
const BLOCKS: u64 = 40;

/// A request of the database of this number, and its reply.
type Asked<'a> = (u32, &'a str, &'a str);

// The request of the line.
fn request_in(alloc: Global, database: u32, line: &str) -> Result<Option<Request>, Stop> {
    let words: Vec<&str> = line.split_whitespace().collect(alloc)?;
    request_of(alloc, database, &words)
}

// The reply has these words. An error of no memory is that memory was refused.
fn is_told(alloc: Global, reply: &Reply, wanted: &str) -> Result<(), Stop> {
    if matches!(reply, Reply::NoMemory) {
        return Err(Stop::NoMemory);
    }
    let mut text = String::new(alloc);
    push_reply(&mut text, reply)?;
    check(text.trim() == wanted)
}

// The gate replies so.
fn answers<G: Gate>(
    alloc: Global,
    gate: &G,
    pass: &mut G::Pass,
    asked: Asked<'_>,
) -> Result<(), Stop>
    requires own { G.owns gate.now pass.old }
    ensures own { G.owns gate.now pass.new }
{
    let (database, line, wanted) = asked;
    match request_in(alloc, database, line)? {
        Some(request) => is_told(alloc, &gate.call(pass, request), wanted),
        None => Err(Stop::Unread),
    }
}

// Writes a block, whose one byte is its LSN, to the copy.
fn write<G: Gate>(
    alloc: Global,
    gate: &G,
    pass: &mut G::Pass,
    lsn: u64,
    copy: u8,
) -> Result<(), Stop>
    requires own { G.owns gate.now pass.old }
    ensures own { G.owns gate.now pass.new }
{
    let line = format!(in alloc; "2 22 primary 1 write {lsn}:{lsn:02x} {copy}")?;
    answers(alloc, gate, pass, (0, &line, "Done"))
}

// Hardens forty blocks, each in two copies.
fn harden<G: Gate>(alloc: Global, gate: &G, pass: &mut G::Pass) -> Result<(), Stop>
    requires own { G.owns gate.now pass.old }
    ensures own { G.owns gate.now pass.new }
{
    for lsn in 1..=BLOCKS {
        write(alloc, gate, pass, lsn, 0)?;
        write(alloc, gate, pass, lsn, 1)?;
    }
    answers(alloc, gate, pass, (0, "2 22 primary 1 report 40", "Done"))
}

// What came of three rounds, after which the page is the newest, and what came of three rounds more after a failover.
fn materialise_twice(
    alloc: Global,
    gate: &Telling,
    pass: &mut SoloPass,
) -> Result<(Worked, Worked), Stop>
    requires own { HasDatabases pass.old }
{
    harden(alloc, gate, pass)?;
    let first = materialise(gate, pass, &PAGER, 0);
    answers(
        alloc,
        gate,
        pass,
        (0, "3 33 secondary 1 get 0 1", "Page 40 28+0"),
    )?;
    answers(alloc, gate, pass, (0, "1 11 operator 1 failover 5", "Done"))?;
    let second = materialise(gate, pass, &PAGER, 0);
    Ok((first, second))
}

// The same of a fresh database. An error is that memory was refused, to the test or to a round.
fn materialise_fresh(alloc: Global) -> Result<(Worked, Worked), Stop> {
    let mut pass = one_pass(alloc)?;
    let gate = Telling::new();
    let seen = materialise_twice(alloc, &gate, &mut pass);
    drop(pass);
    if gate.tells_refusal() {
        return Err(Stop::NoMemory);
    }
    seen
}

const AFTER_FAILOVER: (Worked, Worked) = (
    Worked { done: 3, epoch: 1 },
    Worked { done: 2, epoch: 2 },
);

#[test]
fn materialise_follows_epochs(rt: HostRuntime) {
    let mut seen = materialise_fresh(rt.alloc());
    if matches!(seen, Err(Stop::NoMemory)) {
        seen = materialise_fresh(rt.alloc());
    }
    assert!(&rt; matches!(seen, Ok(AFTER_FAILOVER)));
}

/// What the last of the passes asks, what the one before it asks then, and what is asked by the one that is left of all.
pub(crate) type Rows<'a> = [&'a [Asked<'a>]; 3];

// The gate replies so to each.
fn answers_all<G: Gate>(
    alloc: Global,
    gate: &G,
    pass: &mut G::Pass,
    asked: &[Asked<'_>],
) -> Result<(), Stop>
    requires own { G.owns gate.now pass.old }
    ensures own { G.owns gate.now pass.new }
{
    for one in asked {
        answers(alloc, gate, pass, *one)?;
    }
    Ok(())
}

// The two passes ask, and all meet: the one that is left asks.
fn ask_and_meet<R: Wait>(
    alloc: Global,
    desks: &Desks<R>,
    mut last: Passes,
    mut before: Passes,
    others: Vec<Passes>,
    rows: &Rows<'_>,
) -> Result<(), Stop>
    requires last { ArePassesOf desks.now last }
    requires before { ArePassesOf desks.now before }
    requires others { All (ArePassesOf desks.now) others.items }
{
    let [of_last, of_before, after] = *rows;
    answers_all(alloc, desks, &mut last, of_last)?;
    answers_all(alloc, desks, &mut before, of_before)?;
    let mut workers = others;
    workers.push(before)?;
    match desks.meet_all(workers, Some(last)) {
        Some(met) => answers_all(alloc, desks, &mut met.into_pass(), after),
        None => Err(Stop::Changed),
    }
}

// The last two of the passes ask, of which there is one for each seat.
fn ask_by_last<R: Wait>(
    alloc: Global,
    desks: &Desks<R>,
    mut passes: Vec<Passes>,
    seats: u32,
    rows: &Rows<'_>,
) -> Result<(), Stop>
    requires of { All (ArePassesOf desks.now) passes.items }
{
    check(passes.len() == seats as usize)?;
    let last = last_of(desks, &mut passes)?;
    let before = last_of(desks, &mut passes)?;
    ask_and_meet(alloc, desks, last, before, passes, rows)
}

fn desks_answer<R: Wait + Drop>(
    rt: R,
    alloc: Global,
    databases: usize,
    seats: u32,
    rows: &Rows<'_>,
) -> Result<(), Stop>
    requires seats { 1 ≤ seats }
{
    let (desks, passes) = Desks::new(alloc, rt, dbs_of(alloc, databases)?, seats, TURNS)?;
    ask_by_last(alloc, &desks, passes, seats, rows)
}

/// Desks of this many databases and seats reply so. They are made again, once, if memory was refused.
pub(crate) fn desks_answer_on<R: Wait + Drop + Copy>(
    rt: R,
    alloc: Global,
    databases: usize,
    seats: u32,
    rows: &Rows<'_>,
) -> Result<(), Stop>
    requires seats { 1 ≤ seats }
{
    match desks_answer(rt, alloc, databases, seats, rows) {
        Err(Stop::NoMemory) => desks_answer(rt, alloc, databases, seats, rows),
        done => done,
    }
}

// What is asked of a database that there is not makes no entry in the one that there is.
const NONE: Rows<'static> = [
    &[(1, "1 11 operator 1 status", "NoDatabase")],
    &[],
    &[(0, "1 11 operator 1 audit 1 10", "Entries")],
];

#[test]
fn no_such_database(rt: HostRuntime) {
    let alloc = rt.alloc();
    assert!(&rt; desks_answer_on(rt, alloc, 1, 2, &NONE).is_ok());
}

// A failover of the second of two databases, by one pass, and the status of each to the other pass.
const APART: Rows<'static> = [
    &[],
    &[(1, "1 11 operator 1 failover 5", "Done")],
    &[
        (0, "1 11 operator 1 status", "Status 1 2 0 0 0"),
        (1, "1 11 operator 1 status", "Denied A2 2"),
    ],
];

#[test]
fn databases_stand_apart(rt: HostRuntime) {
    let alloc = rt.alloc();
    assert!(&rt; desks_answer_on(rt, alloc, 2, 2, &APART).is_ok());
}
