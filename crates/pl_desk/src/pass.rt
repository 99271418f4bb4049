//! The pass of one thread.

use crate::steps::DeskSeat;
use std::marker::Model;

/// The right to call one desk, under a number of its own. A call takes it by `&mut`, so that a pass
/// is in one call at a time.
///
/// A contract sees its desk, its number, the history that it has seen, and the greatest ticket that
/// it has read.
#[derive(Drop)]
pub struct Pass {
    pub(crate) seat: DeskSeat,
    pub(crate) number: u64,
}

impl Model for Pass {
    ghost use Rattle.std.specs.Prelude.{◌≡◌, ◌≤◌, []};
    ghost use Rattle.pl_desk.specs.Passes.{Knowledge, knowledge_of};
    ghost use Rattle.pl_desk.specs.declared.rule.Stage.TheVariants.{Idle};

    ghost Value = { Knowledge };

    ghost view = { λ p. knowledge_of p.seat.table_id p.seat.me.0 };

    ghost invariant = { λ p. (p.seat.me.1 ≡ []) × (p.seat.me.0.stage ≡ Idle) ×
        (p.number ≡ p.seat.me.0.number) × (1 ≤ p.seat.me.0.number) ×
        (p.seat.me.0.number ≤ p.seat.me.0.terms.seats) };
}
