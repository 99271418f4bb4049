//! Desks that are opened and closed: a second time, if memory was refused.

ghost use Rattle.std.specs.Prelude.{◌≤◌, ◌^◌, IfOk};
ghost use Rattle.std.specs.List.{All};
ghost use Rattle.pl_desk.specs.Passes.{IsOf};

use pl_core::{Db, Limits};
use pl_desk::{Desk, Pass};
use std::alloc::Global;
use transcripts::table_text::table_named;
use transcripts::transcript::Stop;

/// As many turns as a desk may have.
pub(crate) const TURNS: u64 = 1 << 62;

/// Notes that memory was refused. Another stop, and a second refusal, end the test.
pub(crate) fn note(stop: Stop, refused: &mut bool) -> Result<(), Stop> {
    if *refused || !matches!(stop, Stop::NoMemory) {
        return Err(stop);
    }
    *refused = true;
    Ok(())
}

// A database with the start table, primary 2 and this limit.
fn open(alloc: Global, audit: u64) -> Result<Db, Stop> {
    let limits = Limits { audit, chunks: 16 };
    if !limits.are_valid() {
        return Err(Stop::Unread);
    }
    let table = table_named(alloc, "start")?;
    match Db::new(alloc, table, 2, limits) {
        Ok(db) => Ok(db),
        Err(_) => Err(Stop::NoMemory),
    }
}

/// The same, and once more if memory is refused.
pub(crate) fn open_on(alloc: Global, audit: u64, refused: &mut bool) -> Result<Db, Stop> {
    match open(alloc, audit) {
        Ok(db) => Ok(db),
        Err(stop) => {
            note(stop, refused)?;
            open(alloc, audit)
        }
    }
}

/// Gives a database up. How many entries it had.
pub(crate) fn give_up(db: Db) -> u64 {
    db.audit_len()
}

// A desk of the database that came back.
fn desk_again(alloc: Global, db: Db, seats: u32, turns: u64) -> Result<(Desk, Vec<Pass>), Stop>
    requires seats { 1 ≤ seats }
    requires some { 1 ≤ turns }
    requires few { turns ≤ 2 ^ 62 }
    ensures of { IfOk result (λ opened. All (IsOf opened.0) opened.1.items) }
{
    match Desk::new(alloc, db, seats, turns) {
        Ok(opened) => Ok(opened),
        Err(back) => {
            give_up(back);
            Err(Stop::NoMemory)
        }
    }
}

/// A desk of the database. If memory is refused to it, the database comes back, and another desk is opened.
pub(crate) fn desk_over(
    alloc: Global,
    db: Db,
    seats: u32,
    turns: u64,
    refused: &mut bool,
) -> Result<(Desk, Vec<Pass>), Stop>
    requires seats { 1 ≤ seats }
    requires some { 1 ≤ turns }
    requires few { turns ≤ 2 ^ 62 }
    ensures of { IfOk result (λ opened. All (IsOf opened.0) opened.1.items) }
{
    match Desk::new(alloc, db, seats, turns) {
        Ok(opened) => Ok(opened),
        Err(back) if !*refused => {
            *refused = true;
            desk_again(alloc, back, seats, turns)
        }
        Err(back) => {
            give_up(back);
            Err(Stop::NoMemory)
        }
    }
}

/// A desk of a database with this limit, with this many passes and turns. What memory is refused to is made again, once.
pub(crate) fn desk_of(
    alloc: Global,
    audit: u64,
    seats: u32,
    turns: u64,
    refused: &mut bool,
) -> Result<(Desk, Vec<Pass>), Stop>
    requires seats { 1 ≤ seats }
    requires some { 1 ≤ turns }
    requires few { turns ≤ 2 ^ 62 }
    ensures of { IfOk result (λ opened. All (IsOf opened.0) opened.1.items) }
{
    let db = open_on(alloc, audit, refused)?;
    desk_over(alloc, db, seats, turns, refused)
}

/// The last of the passes.
pub(crate) fn last_of(desk: &Desk, passes: &mut Vec<Pass>) -> Result<Pass, Stop>
    requires of { All (IsOf desk.now) passes.old.items }
    ensures last { IfOk result (λ pass. IsOf desk.now pass) }
    ensures of { All (IsOf desk.now) passes.new.items }
{
    passes.pop().ok_or(Stop::Unread)
}

/// Closes the desk. How many entries its database has.
pub(crate) fn entries_of(desk: Desk, pass: Pass) -> Result<u64, Stop>
    requires of { IsOf desk pass }
{
    match desk.close(pass) {
        Some(db) => Ok(give_up(db)),
        None => Err(Stop::Unread),
    }
}
