//! The atomic steps of a desk, one function each.

ghost use Rattle.std.specs.Prelude.{◌≡◌, ◌≢◌, ◌<◌, ◌≤◌, ℕ, [], ◌∷◌, Some};
ghost use Rattle.pl_core.specs.History.{History};
ghost use Rattle.pl_desk.specs.declared.rule.Stage.TheVariants.{Idle, Asking, Waiting, InTurn, Met};
ghost use Rattle.pl_desk.specs.Rule.{GoesOnFrom, IsAhead, HasBoth};
ghost use Rattle.pl_desk.specs.Steps.{at_stage, asked, AddsOne, counted, turn_passed, dealing, dealt, meeting};

use crate::boxed::BoxedDb;
use crate::plays::{Asks, Counts, Deals, Draws, Joins, Looks, Meets, Serves, Told};
use crate::rule::{Opening, Turns, View};
use atomic_table::{Seat, Shared};
use std::marker::Brand;

/// The words and the slot of a desk.
pub(crate) type DeskShared = Shared<Option<BoxedDb>, View, Opening, Turns>;

/// The seat of a pass at the table.
pub(crate) type DeskSeat = Seat<Option<BoxedDb>, View>;

/// The word that counts the entries of the audit list.
const COUNT: usize = 0;

/// The word that is the next ticket.
pub(crate) const NEXT: usize = 1;

/// The word that is the ticket being served.
pub(crate) const SERVING: usize = 2;

/// The slot of the database.
pub(crate) const DB: usize = 0;

/// Loads the next ticket.
pub(crate) fn ask(shared: &DeskShared, seat: &mut DeskSeat) -> u64
    requires shared { (seat.old.table_id ≡ shared.now.table_id) × (shared.now.table_id.words ≡ 3) }
    requires rests { (seat.old.me.1 ≡ []) × (seat.old.me.0.stage ≡ Idle) }
    ensures same { (seat.new.table_id ≡ seat.old.table_id) × (seat.new.id ≡ seat.old.id) }
    ensures pass { seat.new.me ≡ (asked result seat.old.me.0, []) }
    ensures legal { (seat.old.me.0.drawn ≤ result) ×
        GoesOnFrom seat.old.me.0.terms seat.old.me.0.seen }
{
    shared.load::<Asks>(seat, NEXT)
}

/// Takes a ticket.
pub(crate) fn draw(shared: &DeskShared, seat: &mut DeskSeat) -> u64
    requires shared { (seat.old.table_id ≡ shared.now.table_id) × (shared.now.table_id.words ≡ 3) }
    requires asks { (seat.old.me.1 ≡ []) × (seat.old.me.0.stage ≡ Asking) }
    ensures same { (seat.new.table_id ≡ seat.old.table_id) × (seat.new.id ≡ seat.old.id) }
    ensures pass { seat.new.me ≡ (at_stage (Waiting result) seat.old.me.0, []) }
{
    shared.fetch_add::<Draws>(seat, NEXT, 1)
}

/// Loads the ticket being served. If it is the pass's own, the pass has the turn.
pub(crate) fn look(shared: &DeskShared, seat: &mut DeskSeat, ticket: u64) -> u64
    requires shared { (seat.old.table_id ≡ shared.now.table_id) × (shared.now.table_id.words ≡ 3) }
    requires waits { (seat.old.me.1 ≡ []) × (seat.old.me.0.stage ≡ Waiting ticket) }
    ensures same { (seat.new.table_id ≡ seat.old.table_id) × (seat.new.id ≡ seat.old.id) }
    ensures not_yet { result ≢ ticket → seat.new.me ≡ seat.old.me }
    ensures turn { result ≡ ticket → (h : History) ×
        (seat.new.me ≡ (at_stage (InTurn ticket h) seat.old.me.0, (0, Some h) ∷ [])) ×
        IsAhead seat.old.me.0.terms seat.old.me.0.number seat.old.me.0.seen h }
{
    shared.load::<Looks>(seat, SERVING)
}

// The one step that makes an entry. The database is out, and has the history that the step announces.
fn count_as<J: Told>(shared: &DeskShared, seat: &mut DeskSeat, db: &BoxedDb)
    requires shared { (seat.old.table_id ≡ shared.now.table_id) × (shared.now.table_id.words ≡ 3) }
    requires told { db.now ≡ J.told }
    requires turn { (t : ℕ) × (h : History) × (seat.old.me.0.stage ≡ InTurn t h) ×
        AddsOne seat.old.me.0.number h db.now }
    ensures same { (seat.new.table_id ≡ seat.old.table_id) × (seat.new.id ≡ seat.old.id) }
    ensures pass { seat.new.me ≡ (counted db.now seat.old.me.0, seat.old.me.1) }
{
    let _ = db;
    shared.fetch_add::<Counts<J>>(seat, COUNT, 1);
}

/// Counts an entry: the history is that of the database from here on.
pub(crate) fn count(shared: &DeskShared, seat: &mut DeskSeat, db: &BoxedDb)
    requires shared { (seat.old.table_id ≡ shared.now.table_id) × (shared.now.table_id.words ≡ 3) }
    requires turn { (t : ℕ) × (h : History) × (seat.old.me.0.stage ≡ InTurn t h) ×
        AddsOne seat.old.me.0.number h db.now }
    ensures same { (seat.new.table_id ≡ seat.old.table_id) × (seat.new.id ≡ seat.old.id) }
    ensures pass { seat.new.me ≡ (counted db.now seat.old.me.0, seat.old.me.1) }
{
    count_as::<Brand>(shared, seat, db);
}

/// Passes the turn on: the next ticket is served. The database is back in the slot by then.
pub(crate) fn serve(shared: &DeskShared, seat: &mut DeskSeat)
    requires shared { (seat.old.table_id ≡ shared.now.table_id) × (shared.now.table_id.words ≡ 3) }
    requires turn { (t : ℕ) × (h : History) × (seat.old.me.0.stage ≡ InTurn t h) ×
        (seat.old.me.1 ≡ (0, Some h) ∷ []) }
    ensures same { (seat.new.table_id ≡ seat.old.table_id) × (seat.new.id ≡ seat.old.id) }
    ensures pass { seat.new.me ≡ (turn_passed seat.old.me.0, []) }
{
    shared.fetch_add::<Serves>(seat, SERVING, 1);
}

/// Deals out one more pass. The first pass alone does so.
pub(crate) fn deal(shared: &DeskShared, seat: &mut DeskSeat) -> DeskSeat
    requires shared { (seat.old.table_id ≡ shared.now.table_id) × (shared.now.table_id.words ≡ 3) }
    requires rests { (seat.old.me.1 ≡ []) × (seat.old.me.0.stage ≡ Idle) }
    requires deals { (0 < seat.old.me.0.dealt) ×
        (seat.old.me.0.dealt < seat.old.me.0.terms.seats) }
    ensures same { (seat.new.table_id ≡ seat.old.table_id) × (seat.new.id ≡ seat.old.id) }
    ensures pass { seat.new.me ≡ (dealing seat.old.me.0, []) }
    ensures value { (result.table_id ≡ seat.old.table_id) ×
        (result.me ≡ (dealt seat.old.me.0, [])) }
{
    shared.split_seat::<Deals>(seat)
}

/// Takes in another pass.
pub(crate) fn join(shared: &DeskShared, seat: &mut DeskSeat, other: DeskSeat)
    requires shared { (seat.old.table_id ≡ shared.now.table_id) × (shared.now.table_id.words ≡ 3) }
    requires other { other.table_id ≡ shared.now.table_id }
    requires rests { (seat.old.me.1 ≡ []) × (seat.old.me.0.stage ≡ Idle) ×
        (other.me.1 ≡ []) × (other.me.0.stage ≡ Idle) }
    ensures same { (seat.new.table_id ≡ seat.old.table_id) × (seat.new.id ≡ seat.old.id) }
    ensures pass { seat.new.me ≡ (meeting seat.old.me.0 other.me.0, []) }
{
    shared.join_seat::<Joins>(seat, other);
}

/// Loads the count of entries: it shows that what both passes had seen has been seen now.
pub(crate) fn compare(shared: &DeskShared, seat: &mut DeskSeat)
    requires shared { (seat.old.table_id ≡ shared.now.table_id) × (shared.now.table_id.words ≡ 3) }
    requires met { (seat.old.me.1 ≡ []) × ((first second : History) × (other : ℕ) ×
        (seat.old.me.0.stage ≡ Met first second other)) }
    ensures same { (seat.new.table_id ≡ seat.old.table_id) × (seat.new.id ≡ seat.old.id) }
    ensures pass { seat.new.me ≡ (at_stage Idle seat.old.me.0, []) }
    ensures legal { GoesOnFrom seat.old.me.0.terms seat.old.me.0.seen }
    ensures met { (first second : History) (other : ℕ) →
        seat.old.me.0.stage ≡ Met first second other →
        HasBoth seat.old.me.0.terms seat.old.me.0.number other first second seat.old.me.0.seen }
{
    shared.load::<Meets>(seat, COUNT);
}
