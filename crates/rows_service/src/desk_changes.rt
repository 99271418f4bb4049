//! Desks that two threads call at once: what holds in the end, whatever the schedule.

ghost use Rattle.std.specs.Prelude.{IfOk};
ghost use Rattle.std.specs.List.{All};
ghost use Rattle.pl_desk.specs.Passes.{IsOf};

use crate::desks::{HARDENS, ask, play};
use crate::opened_desks::{TURNS, desk_of, entries_of, last_of, note};
use pl_desk::{Desk, Pass};
use std::alloc::Global;
use std::process::Abort;
use std::sync::Wait;
use std::thread;
use std::thread::Threads;
use transcripts::transcript::Stop;

/// What one thread asks, again and again.
#[derive(Drop)]
struct Asked {
    times: u64,
    /// The words of the request. `BLOCK` is a block with the number of the question as its LSN
    /// and as its byte.
    words: &'static str,
    /// The answers up to a change, and after it.
    answers: [&'static str; 2],
}

/// A row of two threads.
#[derive(Drop)]
struct Row {
    audit: u64,
    /// What the first pass asks before the threads start.
    before: &'static str,
    first: Asked,
    second: Asked,
    /// What the first pass asks when it has met the second.
    after: &'static str,
}

// Asks, and returns how many answers are those up to the change. All others have to come after it.
fn ask_over_a_change(
    rt: &impl Wait,
    alloc: Global,
    desk: &Desk,
    pass: &mut Pass,
    asked: &Asked,
    refused: &mut bool,
) -> Result<u64, Stop>
    requires of { IsOf desk.now pass.old }
    ensures of { IsOf desk.now pass.new }
{
    let [before, after] = asked.answers;
    let mut count: u64 = 0;
    for number in 1..=asked.times {
        let text = ask(rt, alloc, desk, pass, asked.words, number, refused)?;
        if text.trim() == before && count == number - 1 {
            count = number;
        } else if text.trim() != after {
            return Err(Stop::Changed);
        }
    }
    Ok(count)
}

// Each pass asks in a thread of its own. How many answers of each are those up to the change.
fn ask_apart<R: Threads + Wait + Abort + Sync>(
    rt: &R,
    alloc: Global,
    desk: &Desk,
    p: &mut Pass,
    q: &mut Pass,
    row: &Row,
    refused: &mut bool,
) -> Result<(u64, u64), Stop>
    requires first { IsOf desk.now p.old }
    requires second { IsOf desk.now q.old }
    ensures first { IsOf desk.now p.new }
    ensures second { IsOf desk.now q.new }
{
    let (mut by_first, mut by_second) = (*refused, *refused);
    let (first, second) = thread::join_mut(
        rt,
        &mut || ask_over_a_change(rt, alloc, desk, p, &row.first, &mut by_first),
        &mut || ask_over_a_change(rt, alloc, desk, q, &row.second, &mut by_second),
    );
    if !*refused && by_first && by_second {
        return Err(Stop::NoMemory);
    }
    *refused = by_first || by_second;
    Ok((first?, second?))
}

// Plays a row with the two passes, of which the first takes in the second.
fn play_both<R: Threads + Wait + Abort + Sync>(
    rt: &R,
    alloc: Global,
    desk: &Desk,
    p: &mut Pass,
    mut q: Pass,
    row: &Row,
    refused: &mut bool,
) -> Result<(u64, u64), Stop>
    requires first { IsOf desk.now p.old }
    requires second { IsOf desk.now q }
    ensures first { IsOf desk.now p.new }
{
    play(rt, alloc, desk, p, row.before, refused)?;
    let ends = ask_apart(rt, alloc, desk, p, &mut q, row, refused)?;
    desk.meet(p, q);
    play(rt, alloc, desk, p, row.after, refused)?;
    Ok(ends)
}

// The same with the last two of the passes. It returns the first of them.
fn play_passes<R: Threads + Wait + Abort + Sync>(
    rt: &R,
    alloc: Global,
    desk: &Desk,
    mut passes: Vec<Pass>,
    row: &Row,
    refused: &mut bool,
) -> Result<(u64, u64, Pass), Stop>
    requires of { All (IsOf desk.now) passes.items }
    ensures of { IfOk result (λ ends. IsOf desk.now ends.2) }
{
    let q = last_of(desk, &mut passes)?;
    let mut p = last_of(desk, &mut passes)?;
    let (first, second) = play_both(rt, alloc, desk, &mut p, q, row, refused)?;
    Ok((first, second, p))
}

// Plays a row. How many answers of both threads are those up to the change, and how many entries there are
// in the end. What memory is refused to, a request or the test itself, is asked again in its place.
fn ends_of<R: Threads + Wait + Abort + Sync>(
    rt: &R,
    alloc: Global,
    row: &Row,
) -> Result<(u64, u64), Stop> {
    let mut refused = false;
    let (desk, passes) = desk_of(alloc, row.audit, 2, TURNS, &mut refused)?;
    let (first, second, pass) = play_passes(rt, alloc, &desk, passes, row, &mut refused)?;
    let entries = entries_of(desk, pass)?;
    Ok((first.saturating_add(second), entries))
}

const TWO_THREADS_TWO_COPIES: &Row = &Row {
    audit: 65_536,
    before: "",
    first: Asked {
        times: 32,
        words: "2 22 primary 1 write BLOCK 0",
        answers: ["Done", "none"],
    },
    second: Asked {
        times: 32,
        words: "2 22 primary 1 write BLOCK 1",
        answers: ["Done", "none"],
    },
    after: "\
2 22 primary 1 report 32 = Done
2 22 primary 1 status    = Status 1 2 32 0 32
",
};

#[test]
fn two_threads_two_copies(rt: HostRuntime) {
    let ends = ends_of(&rt, rt.alloc(), TWO_THREADS_TWO_COPIES);
    assert!(&rt; matches!(ends, Ok((64, 66))));
}

const FAILOVER_BENEATH_WRITES: &Row = &Row {
    audit: 65_536,
    before: "",
    first: Asked {
        times: 64,
        words: "2 22 primary 1 write BLOCK 0",
        answers: ["Done", "Denied A2 2"],
    },
    second: Asked {
        times: 1,
        words: "1 11 operator 1 failover 5",
        answers: ["Done", "none"],
    },
    after: "2 22 primary 1 status = Denied A2 2",
};

fn push_write(out: &mut String, number: u64, lsn: u64, verdict: &str) -> Result<(), Stop> {
    Ok(write!(out, " {number}/1/2/primary/1/write/{lsn}/0/{verdict}")?)
}

// An audit of the first 65 entries, when this many writes were allowed.
fn audit_of(alloc: Global, allowed: u64) -> Result<String, Stop> {
    let mut row = String::new(alloc);
    row.push_str("1 11 operator 2 audit 1 65 = Entries")?;
    for number in 1..=65 {
        if number <= allowed {
            push_write(&mut row, number, number, "allowed")?;
        } else if number - 1 == allowed {
            write!(row, " {number}/2/1/operator/1/failover/5/0/allowed")?;
        } else {
            push_write(&mut row, number, number - 1, "A2:2")?;
        }
    }
    Ok(row)
}

// The same, and once more if memory is refused.
fn audit_on(alloc: Global, allowed: u64, refused: &mut bool) -> Result<String, Stop> {
    match audit_of(alloc, allowed) {
        Ok(row) => Ok(row),
        Err(stop) => {
            note(stop, refused)?;
            audit_of(alloc, allowed)
        }
    }
}

// The list begins with the entries of both threads.
fn fail_over_at<R: Threads + Wait + Abort + Sync>(
    rt: &R,
    alloc: Global,
    desk: &Desk,
    passes: Vec<Pass>,
    refused: &mut bool,
) -> Result<Pass, Stop>
    requires of { All (IsOf desk.now) passes.items }
    ensures of { IfOk result (λ pass. IsOf desk.now pass) }
{
    let (allowed, _, mut pass) = play_passes(
        rt,
        alloc,
        desk,
        passes,
        FAILOVER_BENEATH_WRITES,
        refused,
    )?;
    let audit = audit_on(alloc, allowed, refused)?;
    play(rt, alloc, desk, &mut pass, &audit, refused)?;
    Ok(pass)
}

// A failover under writes, and an audit after both. How many entries there are in the end.
fn fail_over_beneath_writes<R: Threads + Wait + Abort + Sync>(
    rt: &R,
    alloc: Global,
) -> Result<u64, Stop> {
    let mut refused = false;
    let (desk, passes) = desk_of(alloc, 65_536, 2, TURNS, &mut refused)?;
    let pass = fail_over_at(rt, alloc, &desk, passes, &mut refused)?;
    entries_of(desk, pass)
}

#[test]
fn failover_beneath_writes(rt: HostRuntime) {
    let entries = fail_over_beneath_writes(&rt, rt.alloc());
    assert!(&rt; matches!(entries, Ok(67)));
}

const STATUS_AFTER_FAILOVER: &Row = &Row {
    audit: 65_536,
    before: "2 22 primary 1 status = Status 1 2 0 0 0",
    first: Asked {
        times: 1,
        words: "2 22 primary 1 status",
        answers: ["Status 1 2 0 0 0", "Denied A2 2"],
    },
    second: Asked {
        times: 1,
        words: "1 11 operator 1 failover 5",
        answers: ["Done", "none"],
    },
    after: "5 55 primary 2 status = Status 2 5 0 0 0",
};

/// A pass that had a status of epoch 1 gets one of epoch 2.
#[test]
fn status_after_failover(rt: HostRuntime) {
    let ends = ends_of(&rt, rt.alloc(), STATUS_AFTER_FAILOVER);
    assert!(&rt; matches!(ends, Ok((_, 4))));
}

const TABLE_BENEATH_PULLS: &Row = &Row {
    audit: 65_536,
    before: HARDENS,
    first: Asked {
        times: 64,
        words: "3 33 secondary 1 pull 0 65535 1 16",
        answers: ["Blocks 2 1:aa", "Denied B1 0"],
    },
    second: Asked {
        times: 1,
        words: "1 11 operator 1 set_table other",
        answers: ["Done", "none"],
    },
    after: "3 33 secondary 1 pull 0 65535 1 16 = Denied B1 0",
};

#[test]
fn table_beneath_pulls(rt: HostRuntime) {
    let ends = ends_of(&rt, rt.alloc(), TABLE_BENEATH_PULLS);
    assert!(&rt; matches!(ends, Ok((_, 69))));
}

const STATUSES: Asked = Asked {
    times: 10,
    words: "2 22 primary 1 status",
    answers: ["Status 1 2 0 0 0", "AuditFull"],
};

const AUDIT_LIMIT_BENEATH_THREADS: &Row = &Row {
    audit: 10,
    before: "",
    first: STATUSES,
    second: STATUSES,
    after: "2 22 primary 1 status = AuditFull",
};

#[test]
fn audit_limit_beneath_threads(rt: HostRuntime) {
    let ends = ends_of(&rt, rt.alloc(), AUDIT_LIMIT_BENEATH_THREADS);
    assert!(&rt; matches!(ends, Ok((10, 10))));
}
