//! The desk, and what its passes do with it.

ghost use Rattle.std.specs.Prelude.{◌≡◌, ◌≤◌, ◌^◌, IfOk, IfErr, IfSome};
ghost use Rattle.std.specs.List.{All};
ghost use Rattle.pl_core.specs.Appending.{AppendsTo, reply_in};
ghost use Rattle.pl_core.specs.Reply.{FitsReply};
ghost use Rattle.pl_desk.specs.Rule.{IsAhead};
ghost use Rattle.pl_desk.specs.Passes.{IsOf, IsSamePass, WasCalled, HasMet, fresh_passes};

use crate::boxed::{BoxedDb, unboxed};
use crate::opening::{DeskTable, deal_all, open_table};
use crate::parkers::Parkers;
use crate::pass::Pass;
use crate::queue::Queue;
use crate::steps::{DB, NEXT, SERVING, ask, compare, draw, join};
use crate::turn::{take_turn, wait};
use pl_core::{Answer, Db, Reply};
use pl_table::Request;
use std::alloc::Global;
use std::marker::Model;
use std::sync::Wait;

/// One database that many threads call.
///
/// A contract sees which desk it is, and what it was made with.
#[derive(Drop)]
pub struct Desk {
    pub(crate) alloc: Global,
    pub(crate) table: DeskTable,
    pub(crate) queue: Queue,
    pub(crate) parkers: Parkers,
    /// If the next ticket is this or more, a call is answered Spent.
    pub(crate) turns: u64,
}

impl Model for Desk {
    ghost use Rattle.std.specs.Prelude.{◌≡◌};
    ghost use Rattle.pl_desk.specs.Passes.{DeskOrigin};

    ghost Value = { DeskOrigin };

    ghost use Rattle.pl_desk.specs.Passes.{origin_of};

    ghost view = { λ d. origin_of d.table.shared.table_id d.table.shared.key };

    ghost invariant = { λ d. (d.table.shared.table_id.words ≡ 3) ×
        (d.table.shared.table_id.slots ≡ 1) × (d.turns ≡ d.table.shared.key.turns) };
}

impl Desk {
    /// A desk of the database, and its passes in the order of their numbers, from 1. All memory that
    /// the desk and its calls need is allocated here, but for what the database takes; if that
    /// fails, the database is given back.
    pub fn new(alloc: Global, db: Db, seats: u32, turns: u64) -> Result<(Desk, Vec<Pass>), Db>
        // At least one seat.
        requires seats { 1 ≤ seats }
        // 1 to 2^62 turns.
        requires turns { (1 ≤ turns) × (turns ≤ 2 ^ 62) }
        // The desk was made with these seats and turns, and the history of the database, its
        // opening.
        ensures terms { IfOk result (λ r. r.0.terms ≡
            record { seats = seats; turns = turns; opening = db }) }
        // As many passes as seats, numbered from 1 on, each of which has seen the opening.
        ensures passes { IfOk result (λ r. r.1.items ≡ fresh_passes r.0 seats) }
        // Each pass is of this desk.
        ensures of { IfOk result (λ r. All (IsOf r.0) r.1.items) }
        // Out of memory, the database is given back.
        ensures err { IfErr result (λ back. back ≡ db) }
    {
        let (Ok(passes), Ok(parkers)) = (
            Vec::with_capacity(alloc, seats as usize),
            Parkers::new(alloc),
        ) else {
            return Err(db);
        };
        let boxed = BoxedDb::new(alloc, db)?;
        let (table, first) = open_table(alloc, boxed, seats, turns)?;
        let passes = deal_all(&table.shared, first, seats, passes);
        let desk = Desk {
            alloc,
            table,
            queue: Queue::new(),
            parkers,
            turns,
        };
        Ok((desk, passes))
    }

    /// Takes a ticket, waits until it is served, and makes one step of the database under the pass's
    /// number. The reply is Spent if `turns` tickets had been given before; calls at the same moment
    /// may be given fewer than `seats` tickets more.
    ///
    /// Nothing is promised of how long it waits, or that a turn comes at all.
    pub fn call(&self, rt: &impl Wait, pass: &mut Pass, request: Request) -> Reply
        // The pass is of this desk.
        requires of { IsOf self.now pass.old }
        // It is the same pass.
        ensures same { IsSamePass pass.old pass.new }
        // `Spent` comes exactly if the ticket read was `turns` or more, and then nothing has
        // changed. Else the call was one step (`IsStep` of pl_core) at a history that begins with
        // what the pass had seen, and what it has seen now is the history after that step
        // (`WasCalled`).
        ensures call { WasCalled pass.old request result pass.new }
        // The reply can be written.
        ensures fits { FitsReply result }
    {
        let mut page = Vec::new(self.alloc);
        let answer = self.call_onto(rt, pass, request, &mut page);
        answer.into_reply(page)
    }

    /// The same call, but the bytes of a page are put after those in `page`, within the turn, and are not a part of the
    /// answer. So they are copied once. If `page` has no room for 8,192 bytes more, memory for them is asked for within
    /// the turn.
    pub fn call_onto(
        &self,
        rt: &impl Wait,
        pass: &mut Pass,
        request: Request,
        page: &mut Vec<u8>,
    ) -> Answer
        // The pass is of this desk.
        requires of { IsOf self.now pass.old }
        // It is the same pass.
        ensures same { IsSamePass pass.old pass.new }
        // What `call` says of its reply holds of the answer with the bytes that were appended
        // (`reply_in` of pl_core).
        ensures call { WasCalled pass.old request
            (reply_in result page.old.items page.new.items) pass.new }
        // The reply can be written.
        ensures fits { FitsReply (reply_in result page.old.items page.new.items) }
        // The buffer keeps its bytes and its memory, and a page's bytes alone are appended
        // (`AppendsTo` of pl_core).
        ensures page { AppendsTo result page.old page.new }
    {
        let shared = &self.table.shared;
        self.queue.enter(rt, shared);
        if ask(shared, &mut pass.seat) >= self.turns {
            self.queue.leave();
            return Answer::Whole(Reply::Spent);
        }
        let ticket = draw(shared, &mut pass.seat);
        wait(rt, shared, &self.parkers, &mut pass.seat, ticket);
        let answer = take_turn(shared, &mut pass.seat, pass.number, request, page);
        self.queue.leave();
        self.parkers.wake(ticket.wrapping_add(1));
        answer
    }

    /// Takes in another pass of this desk: the first pass has then seen what both had. It neither
    /// waits nor takes a turn.
    pub fn meet(&self, pass: &mut Pass, other: Pass)
        // Both passes are of this desk.
        requires of { IsOf self.now pass.old }
        requires other { IsOf self.now other }
        // It is the same pass.
        ensures same { IsSamePass pass.old pass.new }
        // What the pass has seen now begins with what both had seen, and has no more entries of
        // either (`HasMet`).
        ensures met { HasMet pass.old other pass.new }
    {
        let shared = &self.table.shared;
        let Pass { seat, number: _ } = other;
        join(shared, &mut pass.seat, seat);
        compare(shared, &mut pass.seat);
    }

    /// Takes the database out, once all calls have returned. There is none if a call was left in
    /// the middle, as in a thread that was never joined.
    pub fn close(self, pass: Pass) -> Option<Db>
        // The pass is of this desk.
        requires of { IsOf self pass }
        // The database's history begins with what the pass has seen, and has no more entries of it
        // (`IsAhead`).
        ensures value { IfSome result (λ h. IsAhead pass.terms pass.number pass.seen h) }
    {
        let Desk {
            alloc: _,
            table,
            queue: _,
            parkers: _,
            turns: _,
        } = self;
        let Pass { seat, number: _ } = pass;
        let mut closed = table.close_with(seat);
        let is_idle = closed.word(NEXT) == closed.word(SERVING);
        let db = closed.take(DB);
        closed.free();
        if is_idle { unboxed(db) } else { None }
    }

    /// The number of a pass, from 1.
    pub fn number(pass: &Pass) -> u64
        // The pass's number.
        ensures value { result ≡ pass.now.number }
        // 1 to the number of seats.
        ensures fits { (1 ≤ result) × (result ≤ pass.now.terms.seats) }
    {
        let Pass { number, seat: _ } = pass;
        *number
    }
}
