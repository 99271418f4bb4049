//! A turn: waiting for it, one step of the database, and passing it on.

ghost use Rattle.std.specs.Prelude.{◌≡◌, ℕ, [], ◌∷◌, Some, Option};
ghost use Rattle.pl_core.specs.History.{History};
ghost use Rattle.pl_core.specs.Legal.{IsLegal};
ghost use Rattle.pl_core.specs.Step.{IsStep};
ghost use Rattle.pl_core.specs.Appending.{reply_in};
ghost use Rattle.pl_desk.specs.declared.rule.Stage.TheVariants.{Waiting, InTurn};
ghost use Rattle.pl_desk.specs.Rule.{IsAhead};
ghost use Rattle.pl_desk.specs.Steps.{at_stage, Grows, IsReplyOfStep, settled};

use crate::boxed::BoxedDb;
use crate::parkers::Parkers;
use crate::steps::{DB, DeskSeat, DeskShared, count, look, serve};
use crossbeam_utils::Backoff;
use pl_core::Answer;
use pl_core::laws::replies_tell_their_cause;
use pl_table::Request;
use std::sync::Wait;

/// Waits until the ticket is served. It looks at the serving word, backs off, and then parks until the
/// ticket is woken.
pub(crate) fn wait(
    rt: &impl Wait,
    shared: &DeskShared,
    parkers: &Parkers,
    seat: &mut DeskSeat,
    ticket: u64,
)
    requires shared { (seat.old.table_id ≡ shared.now.table_id) × (shared.now.table_id.words ≡ 3) }
    requires waits { (seat.old.me.1 ≡ []) × (seat.old.me.0.stage ≡ Waiting ticket) }
    ensures same { (seat.new.table_id ≡ seat.old.table_id) × (seat.new.id ≡ seat.old.id) }
    ensures turn { (h : History) ×
        (seat.new.me ≡ (at_stage (InTurn ticket h) seat.old.me.0, (0, Some h) ∷ [])) ×
        IsAhead seat.old.me.0.terms seat.old.me.0.number seat.old.me.0.seen h }
{
    let backoff = Backoff::new();
    for _ in rt.forever() {
        let has_spun = backoff.is_completed();
        if has_spun {
            parkers.announce(ticket);
        }
        if look(shared, seat, ticket) == ticket {
            return;
        }
        if has_spun {
            parkers.park(rt, ticket);
        } else {
            backoff.snooze();
        }
    }
    unreachable!()
}

// Takes the database out.
fn take_out(shared: &DeskShared, seat: &mut DeskSeat) -> BoxedDb
    requires shared { seat.old.table_id ≡ shared.now.table_id }
    requires turn { (h : History) × (seat.old.me.1 ≡ (0, Some h) ∷ []) }
    ensures same { (seat.new.table_id ≡ seat.old.table_id) × (seat.new.id ≡ seat.old.id) }
    ensures out { (o : Option History) × (seat.new.me ≡ (seat.old.me.0, (0, o) ∷ [])) }
    ensures found { (h : History) → seat.old.me.1 ≡ (0, Some h) ∷ [] → result ≡ h }
{
    let Some(db) = shared.exchange(seat, DB, None) else {
        unreachable!();
    };
    db
}

// Makes one step of the database, and puts a page's bytes after those in `page`. It says whether an entry was made.
fn step_of(db: &mut BoxedDb, number: u64, request: Request, page: &mut Vec<u8>) -> (Answer, bool)
    ensures step { IsStep number request db.old
        (reply_in result.0 page.old.items page.new.items) db.new }
    ensures grows { Grows result.1 number db.old db.new }
    ensures legal { IsLegal db.new }
    ensures reply { IsReplyOfStep result.0 page.old page.new }
{
    // Proof only: this does nothing.
    replies_tell_their_cause();
    let db = &mut *db.db;
    let before = db.audit_len();
    let answer = db.step_onto(number, request, page);
    let made = db.audit_len() != before;
    (answer, made)
}

// Takes the database out and makes one step of it. It says whether an entry was made.
fn step(
    shared: &DeskShared,
    seat: &mut DeskSeat,
    number: u64,
    request: Request,
    page: &mut Vec<u8>,
) -> (Answer, bool, BoxedDb)
    requires shared { seat.old.table_id ≡ shared.now.table_id }
    requires turn { (h : History) × (seat.old.me.1 ≡ (0, Some h) ∷ []) }
    ensures same { (seat.new.table_id ≡ seat.old.table_id) × (seat.new.id ≡ seat.old.id) }
    ensures out { (o : Option History) × (seat.new.me ≡ (seat.old.me.0, (0, o) ∷ [])) }
    ensures step { (h : History) → seat.old.me.1 ≡ (0, Some h) ∷ [] →
        IsStep number request h (reply_in result.0 page.old.items page.new.items) result.2 ×
        Grows result.1 number h result.2 × IsLegal result.2 }
    ensures reply { IsReplyOfStep result.0 page.old page.new }
{
    let mut db = take_out(shared, seat);
    let (answer, made) = step_of(&mut db, number, request, page);
    (answer, made, db)
}

// Counts the entry, if one was made. From then on the history is that of the database.
fn count_made(shared: &DeskShared, seat: &mut DeskSeat, db: &BoxedDb, made: bool)
    requires shared { (seat.old.table_id ≡ shared.now.table_id) × (shared.now.table_id.words ≡ 3) }
    requires turn { (t : ℕ) × (h : History) × (seat.old.me.0.stage ≡ InTurn t h) ×
        Grows made seat.old.me.0.number h db.now }
    ensures same { (seat.new.table_id ≡ seat.old.table_id) × (seat.new.id ≡ seat.old.id) }
    ensures turn { (t : ℕ) × (seat.new.me.0.stage ≡ InTurn t db.now) }
    ensures settled { settled db.now seat.new.me.0 ≡ settled db.now seat.old.me.0 }
    ensures held { seat.new.me.1 ≡ seat.old.me.1 }
{
    if made {
        count(shared, seat, db);
    }
}

// Puts the database back, so that the turn may be passed on.
fn put_back(shared: &DeskShared, seat: &mut DeskSeat, db: BoxedDb)
    requires shared { seat.old.table_id ≡ shared.now.table_id }
    requires turn { (t : ℕ) × (seat.old.me.0.stage ≡ InTurn t db) }
    requires out { (o : Option History) × (seat.old.me.1 ≡ (0, o) ∷ []) }
    ensures same { (seat.new.table_id ≡ seat.old.table_id) × (seat.new.id ≡ seat.old.id) }
    ensures pass { seat.new.me.0 ≡ seat.old.me.0 }
    ensures turn { (t : ℕ) × (h : History) × (seat.new.me.0.stage ≡ InTurn t h) ×
        (seat.new.me.1 ≡ (0, Some h) ∷ []) }
{
    shared.exchange(seat, DB, Some(db));
}

/// One turn of the pass with this number: a step of the database at the history that the turn has
/// found. Then the turn is passed on. A page's bytes are put after those in `page`, within the turn.
pub(crate) fn take_turn(
    shared: &DeskShared,
    seat: &mut DeskSeat,
    number: u64,
    request: Request,
    page: &mut Vec<u8>,
) -> Answer
    requires shared { (seat.old.table_id ≡ shared.now.table_id) × (shared.now.table_id.words ≡ 3) }
    requires turn { (t : ℕ) × (h : History) × (seat.old.me.0.stage ≡ InTurn t h) ×
        (seat.old.me.1 ≡ (0, Some h) ∷ []) }
    requires number { number ≡ seat.old.me.0.number }
    ensures same { (seat.new.table_id ≡ seat.old.table_id) × (seat.new.id ≡ seat.old.id) }
    ensures step { (h : History) → seat.old.me.1 ≡ (0, Some h) ∷ [] → (g : History) ×
        (seat.new.me ≡ (settled g seat.old.me.0, [])) ×
        IsStep number request h (reply_in result page.old.items page.new.items) g × IsLegal g }
    ensures reply { IsReplyOfStep result page.old page.new }
{
    let (answer, made, db) = step(shared, seat, number, request, page);
    count_made(shared, seat, &db, made);
    put_back(shared, seat, db);
    serve(shared, seat);
    answer
}
