//! The rule of a desk's table, and what it is about: what the desk was made with, and the view of
//! each pass. A view is for the proofs alone: no value of `Terms`, `Stage` or `View` is ever made.

use crate::boxed::BoxedDb;
use atomic_table::TableRule;
use pl_core::Db;
use std::snapshot::Snapshot;

/// What a desk is made with.
#[derive(Drop)]
pub struct Opening {
    pub seats: u32,
    pub turns: u64,
    pub db: Snapshot<BoxedDb>,
}

/// The same as plain data, with the history of the database.
pub struct Terms {
    pub seats: u32,
    pub turns: u64,
    pub opening: Db,
}

/// How far a pass is in a call or a meeting.
pub enum Stage {
    /// In none.
    Idle,
    /// It has read a ticket word below `turns`, and takes a ticket next.
    Asking,
    /// It has this ticket.
    Waiting(u64),
    /// It has this ticket, which is being served, and the database has this history.
    InTurn(u64, Db),
    /// It has met the pass of this number. Before, it had seen the first history, and the other pass
    /// the second.
    Met(Db, Db, u64),
    /// It was taken in by another pass.
    Gone,
}

/// What a pass knows.
pub struct View {
    pub terms: Terms,
    pub number: u64,
    /// The history that it has seen.
    pub seen: Db,
    /// The greatest ticket word that it has read.
    pub drawn: u64,
    /// Of pass 1, until it is taken in, how many passes there are; of any other 0.
    pub dealt: u64,
    pub stage: Stage,
}

/// The rule.
pub struct Turns;

impl TableRule<Option<BoxedDb>, View, Opening> for Turns {
    ghost use Rattle.pl_desk.specs.Rule.{DeskInvariant, first_view, terms_of};

    ghost holds = { λ opening. DeskInvariant (terms_of opening) };

    ghost first = { λ opening. first_view (terms_of opening) };
}
