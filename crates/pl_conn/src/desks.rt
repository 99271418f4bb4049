//! Several databases for many threads: each database has its desk, and each thread a pass of each.

ghost use Rattle.std.specs.Prelude.{◌≡◌, ◌≤◌, ◌^◌, ◌++◌, ◌∷◌, [], map, length, vec_len, replicate, IfOk, OnOk};
ghost use Rattle.std.specs.List.{All};
ghost use Rattle.pl_conn.specs.Desks.{ArePassesOf, DesksCall, HaveMet, dealt_into, terms_of_each, all_fresh};

use pl_core::{Answer, Db, Reply};
use pl_desk::{Desk, Pass};
use pl_table::Request;
use pl_wire::Gate;
use std::alloc::{AllocError, Global};
use std::marker::Model;
use std::sync::Wait;

/// A gate to several databases, which many threads call at the same time. A call goes to the desk of
/// the database that the request names; if there is none, it is answered `NoDatabase` before any
/// turn. It keeps the runtime by which its calls wait; to make it and to let passes meet waits for
/// nothing.
///
/// A contract sees the desks, in the order of their databases.
#[derive(Drop)]
pub struct Desks<R> {
    rt: R,
    desks: Vec<Desk>,
}

impl<R> Model for Desks<R> {
    ghost use Rattle.std.specs.Prelude.{List};
    ghost use Rattle.pl_desk.specs.Passes.{DeskOrigin};

    ghost Value = { List DeskOrigin };

    ghost view = { λ d. d.desks.items };
}

/// The right to call each of several desks, under one number.
///
/// A contract sees the pass of each desk, in the order of the databases.
#[derive(Drop)]
pub struct Passes {
    items: Vec<Pass>,
}

impl Model for Passes {
    ghost use Rattle.std.specs.Prelude.{List};
    ghost use Rattle.pl_desk.specs.Passes.{Knowledge};

    ghost Value = { List Knowledge };

    ghost view = { λ p. p.items.items };
}

impl Passes {
    fn push(&mut self, pass: Pass) -> Result<(), AllocError>
        ensures { OnOk result (self.new ≡ self.old ++ pass ∷ []) }
    {
        self.items.push(pass)?;
        Ok(())
    }
}

// This many that have no pass yet.
fn empty_passes(alloc: Global, seats: u32) -> Result<Vec<Passes>, AllocError>
    ensures { IfOk result (λ all. all.items ≡ replicate seats []) }
{
    let mut all = Vec::with_capacity(alloc, seats as usize)?;
    for _ in 0..seats {
        all.push(Passes {
            items: Vec::new(alloc),
        })?;
    }
    Ok(all)
}

// Deals the passes of one desk out, one to each.
fn deal(all: &mut Vec<Passes>, mut passes: Vec<Pass>) -> Result<(), AllocError>
    requires { length passes.items ≤ length all.old.items }
    ensures { OnOk result (all.new.items ≡ dealt_into passes.items all.old.items) }
{
    while let Some(pass) = passes.pop() {
        let place = &mut all[passes.len()];
        place.push(pass)?;
    }
    Ok(())
}

// Puts a desk after the others, and deals its passes out.
fn put_desk(
    desk: Desk,
    passes: Vec<Pass>,
    desks: &mut Vec<Desk>,
    all: &mut Vec<Passes>,
) -> Result<(), AllocError>
    requires { length passes.items ≤ length all.old.items }
    ensures { OnOk result ((desks.new.items ≡ desks.old.items ++ desk ∷ []) ×
        (all.new.items ≡ dealt_into passes.items all.old.items)) }
{
    desks.push(desk)?;
    deal(all, passes)
}

// Opens the desk of one database more, and deals its passes out.
fn open_one(
    alloc: Global,
    db: Db,
    seats: u32,
    turns: u64,
    desks: &mut Vec<Desk>,
    all: &mut Vec<Passes>,
) -> Result<(), AllocError>
    requires seats { 1 ≤ seats }
    requires some { 1 ≤ turns }
    requires few { turns ≤ 2 ^ 62 }
    requires dealt { all.old.items ≡ all_fresh desks.old.items seats }
    ensures terms { OnOk result (map (λ desk. desk.terms) desks.new.items ≡
        map (λ desk. desk.terms) desks.old.items ++
        record { seats = seats; turns = turns; opening = db } ∷ []) }
    ensures dealt { OnOk result (all.new.items ≡ all_fresh desks.new.items seats) }
{
    let Ok((desk, passes)) = Desk::new(alloc, db, seats, turns) else {
        return Err(AllocError);
    };
    put_desk(desk, passes, desks, all)
}

// At each desk the pass meets the other.
fn meet_each(desks: &[Desk], passes: &mut [Pass], mut others: Vec<Pass>)
    requires of { ArePassesOf desks.now passes.old }
    requires others { ArePassesOf desks.now others.items }
    ensures of { ArePassesOf desks.now passes.new }
    ensures met { HaveMet passes.old others.items passes.new }
{
    while let Some(other) = others.pop() {
        let place = others.len();
        desks[place].meet(&mut passes[place], other);
    }
}

impl<R> Desks<R> {
    /// A desk for each database, and the passes of all desks: the `Passes` with number `i` have pass
    /// `i` of each desk, in the order of the databases, and come in the order of their numbers, from 1.
    /// There are 1 to 16 databases, at least 1 seat, and 1 to 2^62 turns at each desk. If an
    /// allocation fails, the databases are dropped.
    pub fn new(
        alloc: Global,
        rt: R,
        dbs: Vec<Db>,
        seats: u32,
        turns: u64,
    ) -> Result<(Desks<R>, Vec<Passes>), AllocError>
    where
        R: Drop,
        // 1 to 16 databases.
        requires dbs { (1 ≤ vec_len dbs) × (vec_len dbs ≤ 16) }
        // At least one seat.
        requires seats { 1 ≤ seats }
        // 1 to 2^62 turns.
        requires turns { (1 ≤ turns) × (turns ≤ 2 ^ 62) }
        // A desk for each database, in order, with this many seats and turns.
        ensures terms { IfOk result (λ r. map (λ desk. desk.terms) r.0 ≡
            terms_of_each seats turns dbs.items) }
        // As many `Passes` as seats, in the order of their numbers from 1, each with the fresh pass
        // of that number of each desk.
        ensures passes { IfOk result (λ r. r.1.items ≡ all_fresh r.0 seats) }
        // All of them are of these desks (`ArePassesOf`).
        ensures of { IfOk result (λ r. All (ArePassesOf r.0) r.1.items) }
    {
        let mut all = empty_passes(alloc, seats)?;
        let mut desks = Vec::with_capacity(alloc, dbs.len())?;
        let mut left = dbs;
        while !left.is_empty() {
            open_one(alloc, left.remove(0), seats, turns, &mut desks, &mut all)?;
        }
        Ok((Desks { rt, desks }, all))
    }

    /// Takes in other passes: at each desk the first pass has then seen what both had. It neither
    /// waits nor takes a turn.
    pub fn meet(&self, passes: &mut Passes, other: Passes)
        // Both passes are of these desks.
        requires of { ArePassesOf self.now passes.old }
        requires other { ArePassesOf self.now other }
        // The passes are of these desks.
        ensures of { ArePassesOf self.now passes.new }
        // At each desk the pass has met the other one, as `Desk::meet` says, and is the same pass
        // (`HaveMet`).
        ensures met { HaveMet passes.old other passes.new }
    {
        let Passes { items } = other;
        meet_each(&self.desks, &mut passes.items, items);
    }
}

impl<R: Wait> Gate for Desks<R> {
    type Pass = Passes;

    // The passes of these desks.
    ghost owns = { ArePassesOf };

    // The pass of the database that the head names was called, as `Desk::call` says, and the other
    // passes stay. `NoDatabase` comes exactly if there is none of that number, and then all
    // stays (`DesksCall`).
    ghost calls = { λ _. DesksCall };

    fn alloc(&self, _passes: &Passes) -> Global {
        *self.desks.allocator()
    }

    fn call_onto(&self, passes: &mut Passes, request: Request, page: &mut Vec<u8>) -> Answer {
        let named = request.head().database as usize;
        let Some(pass) = passes.items.get_mut(named) else {
            return Answer::Whole(Reply::NoDatabase);
        };
        self.desks[named].call_onto(&self.rt, pass, request, page)
    }
}
