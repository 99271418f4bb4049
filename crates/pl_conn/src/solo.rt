//! Databases of one caller, with no thread.

ghost use Rattle.std.specs.Prelude.{◌≡◌, ◌≤◌, length};
ghost use Rattle.pl_core.specs.Appending.{AppendsTo, reply_in};
ghost use Rattle.pl_core.specs.Reply.{FitsReply};
ghost use Rattle.pl_core.specs.Step.{IsStep};
ghost use Rattle.pl_conn.specs.Solo.{HasDatabases, SoloCall};

use pl_core::{Answer, Db, Reply};
use pl_table::Request;
use pl_wire::Gate;
use std::alloc::Global;
use std::marker::Model;

/// Databases, numbered from 0, and the number under which they are asked.
///
/// A contract sees the histories of the databases, and the number.
#[derive(Drop)]
pub struct SoloPass {
    dbs: Vec<Db>,
    number: u64,
}

impl Model for SoloPass {
    ghost use Rattle.pl_conn.specs.Solo.{HeldDatabases};

    ghost Value = { HeldDatabases };

    ghost view = { λ p. record { dbs = p.dbs.items; number = p.number } };
}

// One step of the database, with the bytes of a page in the buffer.
fn step(db: &mut Db, number: u64, request: Request, page: &mut Vec<u8>) -> Answer
    ensures step { IsStep number request db.old
        (reply_in result page.old.items page.new.items) db.new }
    ensures fits { FitsReply (reply_in result page.old.items page.new.items) }
    ensures page { AppendsTo result page.old page.new }
{
    db.step_onto(number, request, page)
}

impl SoloPass {
    /// A pass that holds these databases, 1 to 16. The number is that of each entry that it makes.
    pub fn new(dbs: Vec<Db>, number: u64) -> SoloPass
        // 1 to 16 databases.
        requires some { 1 ≤ length dbs.items }
        requires few { length dbs.items ≤ 16 }
        // The pass has these databases, in their order.
        ensures dbs { result.dbs ≡ dbs.items }
        // It has this number.
        ensures number { result.number ≡ number }
        // It has 1 to 16 databases (`HasDatabases`).
        ensures fits { HasDatabases result }
    {
        SoloPass { dbs, number }
    }

    /// The databases, in the order of their numbers.
    pub fn into_dbs(self) -> Vec<Db>
        // The databases, in their order.
        ensures value { result.items ≡ self.dbs }
    {
        let SoloPass { dbs, number: _ } = self;
        dbs
    }

    // One step of the database that the request names.
    fn call_onto(&mut self, request: Request, page: &mut Vec<u8>) -> Answer
        ensures call { SoloCall self.old request
            (reply_in result page.old.items page.new.items) self.new }
        ensures fits { FitsReply (reply_in result page.old.items page.new.items) }
        ensures page { AppendsTo result page.old page.new }
    {
        let number = self.number;
        let database = request.head().database as usize;
        match self.dbs.get_mut(database) {
            Some(db) => step(db, number, request, page),
            None => Answer::Whole(Reply::NoDatabase),
        }
    }
}

/// The gate of one caller. The databases are in the pass, so that a call neither waits nor needs a
/// handle. The gate of `pagelog serve` is [`Desks`](crate::Desks).
///
/// A request is one step of the database that its head names, under the pass's number. `NoDatabase`
/// is replied if there is none of that number, and then nothing has changed.
#[derive(Clone, Copy, Debug)]
pub struct Solo;

impl Gate for Solo {
    type Pass = SoloPass;

    // A pass of 1 to 16 databases.
    ghost owns = { λ _ pass. HasDatabases pass };

    // One step of the database that the head names, under the pass's number, and the others stay.
    // `NoDatabase` comes exactly if there is none of that number, and then all stays
    // (`SoloCall`).
    ghost calls = { λ _. SoloCall };

    fn alloc(&self, pass: &SoloPass) -> Global {
        *pass.dbs.allocator()
    }

    fn call_onto(&self, pass: &mut SoloPass, request: Request, page: &mut Vec<u8>) -> Answer {
        SoloPass::call_onto(pass, request, page)
    }
}
