//! Desks of few turns: each call takes one, also one that is refused memory, so that none is asked again.

ghost use Rattle.std.specs.Prelude.{IfOk};
ghost use Rattle.std.specs.List.{All};
ghost use Rattle.pl_desk.specs.Passes.{IsOf};

use crate::desks::status;
use crate::opened_desks::{desk_of, entries_of, last_of};
use pl_core::Reply;
use pl_desk::{Desk, Pass};
use std::alloc::Global;
use std::sync::Wait;
use std::thread;
use std::thread::Threads;
use transcripts::transcript::Stop;

/// What became of calls: how many were answered, how many were refused memory, and how many had no turn.
#[derive(Drop)]
struct Calls {
    answered: u64,
    refused: u64,
    spent: u64,
}

impl Calls {
    // Counts the reply to one more status. One call of a test may be refused memory, and none has a turn after one that
    // had none.
    fn count(&mut self, reply: &Reply, refused: &mut bool) -> Result<(), Stop> {
        match reply {
            Reply::Spent => self.spent = self.spent.saturating_add(1),
            Reply::NoMemory if self.spent == 0 && !*refused => {
                *refused = true;
                self.refused = 1;
            }
            Reply::Status {
                epoch: 1,
                primary: 2,
                hard: 0,
                pending: 0,
                landing: 0,
            } if self.spent == 0 => self.answered = self.answered.saturating_add(1),
            _ => return Err(Stop::Changed),
        }
        Ok(())
    }
}

// Asks for this many statuses.
fn call_each(
    rt: &impl Wait,
    desk: &Desk,
    pass: &mut Pass,
    times: u64,
    refused: &mut bool,
) -> Result<Calls, Stop>
    requires of { IsOf desk.now pass.old }
    ensures of { IsOf desk.now pass.new }
{
    let mut calls = Calls {
        answered: 0,
        refused: 0,
        spent: 0,
    };
    for _ in 0..times {
        let reply = desk.call(rt, pass, status()?);
        calls.count(&reply, refused)?;
    }
    Ok(calls)
}

// The same by the last of the passes.
fn call_by_last(
    rt: &impl Wait,
    desk: &Desk,
    mut passes: Vec<Pass>,
    times: u64,
    refused: &mut bool,
) -> Result<(Calls, Pass), Stop>
    requires of { All (IsOf desk.now) passes.items }
    ensures of { IfOk result (λ ends. IsOf desk.now ends.1) }
{
    let mut pass = last_of(desk, &mut passes)?;
    let calls = call_each(rt, desk, &mut pass, times, refused)?;
    Ok((calls, pass))
}

// Asks a desk of two turns for three statuses, and how many entries there are in the end.
fn spend_two(rt: &impl Wait, alloc: Global) -> Result<(Calls, u64), Stop> {
    let mut refused = false;
    let (desk, passes) = desk_of(alloc, 65_536, 1, 2, &mut refused)?;
    let (calls, pass) = call_by_last(rt, &desk, passes, 3, &mut refused)?;
    let entries = entries_of(desk, pass)?;
    Ok((calls, entries))
}

// Two calls have a turn, and the third has none. An entry is what was answered.
fn are_two(calls: &Calls, entries: u64) -> bool {
    let turns = calls.answered.saturating_add(calls.refused);
    turns == 2 && calls.spent == 1 && entries == calls.answered
}

#[test]
fn turns_run_out(rt: HostRuntime) {
    let ends = spend_two(&rt, rt.alloc());
    assert!(&rt; matches!(&ends, Ok((calls, entries)) if are_two(calls, *entries)));
}

// Two threads ask for ten statuses each.
fn call_apart<R: Threads + Wait + Sync>(
    rt: &R,
    desk: &Desk,
    p: &mut Pass,
    q: &mut Pass,
    refused: &mut bool,
) -> Result<(Calls, Calls), Stop>
    requires first { IsOf desk.now p.old }
    requires second { IsOf desk.now q.old }
    ensures first { IsOf desk.now p.new }
    ensures second { IsOf desk.now q.new }
{
    let mut by_second = *refused;
    let (first, second) = thread::join_mut(
        rt,
        &mut || call_each(rt, desk, p, 10, refused),
        &mut || call_each(rt, desk, q, 10, &mut by_second),
    );
    Ok((first?, second?))
}

// The same, and their passes meet. Then the turns are spent.
fn call_by_two<R: Threads + Wait + Sync>(
    rt: &R,
    desk: &Desk,
    mut passes: Vec<Pass>,
    refused: &mut bool,
) -> Result<(Calls, Calls, Pass), Stop>
    requires of { All (IsOf desk.now) passes.items }
    ensures of { IfOk result (λ ends. IsOf desk.now ends.2) }
{
    let mut q = last_of(desk, &mut passes)?;
    let mut p = last_of(desk, &mut passes)?;
    let (first, second) = call_apart(rt, desk, &mut p, &mut q, refused)?;
    desk.meet(&mut p, q);
    let after = call_each(rt, desk, &mut p, 1, refused)?;
    if after.spent == 1 {
        Ok((first, second, p))
    } else {
        Err(Stop::Changed)
    }
}

fn spend_ten<R: Threads + Wait + Sync>(rt: &R, alloc: Global) -> Result<(Calls, Calls, u64), Stop> {
    let mut refused = false;
    let (desk, passes) = desk_of(alloc, 65_536, 2, 10, &mut refused)?;
    let (first, second, pass) = call_by_two(rt, &desk, passes, &mut refused)?;
    let entries = entries_of(desk, pass)?;
    Ok((first, second, entries))
}

// Ten or eleven calls have a turn, and the others have none. An entry is what was answered.
fn are_ten(first: &Calls, second: &Calls, entries: u64) -> bool {
    let answered = first.answered.saturating_add(second.answered);
    let refused = first.refused.saturating_add(second.refused);
    let turns = answered.saturating_add(refused);
    refused <= 1 && (turns == 10 || turns == 11) && entries == answered
}

#[test]
fn turns_beneath_threads(rt: HostRuntime) {
    let ends = spend_ten(&rt, rt.alloc());
    assert!(&rt; matches!(&ends, Ok((first, second, entries)) if are_ten(first, second, *entries)));
}
