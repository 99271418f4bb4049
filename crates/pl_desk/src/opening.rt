//! Opening a desk: its table with the first pass, and the other passes, dealt out by the first.

ghost use Rattle.std.specs.Prelude.{◌≡◌, ◌≤◌, ◌+◌, ◌-◌, ◌<◌, ◌^◌, [], ◌∷◌, map, vec_len, vec_capacity, IfOk, IfErr, Some};
ghost use Rattle.std.specs.List.{range_with_len};
ghost use Rattle.pl_desk.specs.declared.rule.Stage.TheVariants.{Idle};
ghost use Rattle.pl_desk.specs.Rule.{first_view, terms_of};
ghost use Rattle.pl_desk.specs.Passes.{fresh, fresh_passes, origin_of};

use crate::boxed::BoxedDb;
use crate::pass::Pass;
use crate::rule::{Opening, Turns, View};
use crate::steps::{DeskSeat, DeskShared, deal};
use atomic_table::{Refused, Table};
use pl_core::Db;
use std::alloc::Global;
use std::snapshot::Snapshot;

/// The table of a desk: three words and one slot.
pub(crate) type DeskTable = Table<Option<BoxedDb>, View, Opening, Turns, Global>;

/// The table, with the database in its slot, and the seat of the first pass.
pub(crate) fn open_table(
    alloc: Global,
    db: BoxedDb,
    seats: u32,
    turns: u64,
) -> Result<(DeskTable, DeskSeat), Db>
    requires seats { 1 ≤ seats }
    requires turns { (1 ≤ turns) × (turns ≤ 2 ^ 62) }
    ensures terms { IfOk result (λ r. terms_of r.0.shared.key ≡
        record { seats = seats; turns = turns; opening = db }) }
    ensures len { IfOk result (λ r. (r.0.shared.table_id.words ≡ 3) ×
        (r.0.shared.table_id.slots ≡ 1)) }
    ensures first { IfOk result (λ r. (r.1.table_id ≡ r.0.shared.table_id) ×
        (r.1.me ≡ (first_view (terms_of r.0.shared.key), []))) }
    ensures err { IfErr result (λ back. back ≡ db) }
{
    let opening = Opening {
        seats,
        turns,
        db: Snapshot::of(&db),
    };
    let words = [db.audit_len(), 0, 0];
    let mut slots = Vec::new(alloc);
    if let Err(failed) = slots.push(Some(db)) {
        let Some(db) = failed.value else {
            unreachable!();
        };
        return Err(db.into_db());
    }
    match Table::new(alloc, &words, slots, &opening) {
        Ok(opened) => Ok(opened),
        Err(Refused { mut slots }) => {
            let Some(Some(db)) = slots.pop() else {
                unreachable!();
            };
            Err(db.into_db())
        }
    }
}

/// All passes, in the order of their numbers: the first, and those that it deals out.
pub(crate) fn deal_all(
    shared: &DeskShared,
    mut first: DeskSeat,
    seats: u32,
    mut passes: Vec<Pass>,
) -> Vec<Pass>
    requires shared { (first.table_id ≡ shared.now.table_id) × (shared.now.table_id.words ≡ 3) }
    requires first { first.me ≡ (first_view (terms_of shared.now.key), []) }
    requires seats { (1 ≤ seats) × ((terms_of shared.now.key).seats ≡ seats) }
    requires empty { vec_len passes ≡ 0 }
    requires room { seats ≤ vec_capacity passes }
    ensures passes { result.items ≡
        fresh_passes (origin_of shared.now.table_id shared.now.key) seats }
{
    let mut number: u64 = 1;
    while number < u64::from(seats) {
        let seat = deal(shared, &mut first);
        number += 1;
        passes.push(Pass { seat, number }).unwrap();
    }
    let Ok(()) = passes.insert(
        0,
        Pass {
            seat: first,
            number: 1,
        },
    ) else {
        unreachable!();
    };
    passes
}
