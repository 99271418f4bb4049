//! What the verdict on a request goes by: the table in force, and the state, which represents the history.

ghost use Rattle.std.specs.Prelude.{◌≡◌, ◌≤◌, ℕ, nat_le, true, unwrap_or, IfSome};
ghost use Rattle.pl_table.specs.Requests.Acts.{block_of};
ghost use Rattle.pl_table.specs.Requests.Asking.{asked_at, asked_in};
ghost use Rattle.pl_table.specs.Tables.FirstMatch.{rows_allow};
ghost use Rattle.pl_table.specs.Requests.Request.{op_of};
ghost use Rattle.pl_table.specs.Tables.Zone.{copies_in, quorum_in};
ghost use Rattle.pl_log.specs.Window.{all_in_quorum, window_open_to};
ghost use Rattle.pl_audit.specs.Audit.{last_table};
ghost use Rattle.pl_decide.specs.Agreement.{AgreesWith};
ghost use Rattle.pl_decide.specs.Asked.{reads_the_log};

use crate::state::{ByTable, State};
use pl_audit::Audit;
use pl_decide::{Decider, View};
use pl_table::{Act, Request, Table, Verdict};

// The table that was set last, or the first one.
pub(crate) fn in_force<'a>(audit: &'a Audit, first: &'a Table) -> &'a Table
    ensures value { result.now ≡ unwrap_or (last_table audit.now.entries) first.now }
{
    audit.last_table().unwrap_or(first)
}

// What section C looks at, with the hardened end. The log is looked at for a request of the present epoch
// alone: another is denied by a row above. So is a write or an offer outside the window, whatever its
// block is.
pub(crate) fn view(state: &State, hard: u64, request: &Request) -> View
    ensures hard { result.hard ≡ hard }
    ensures copies { result.copies ≡ state.now.log.copies }
    ensures can_harden { request.now.head.epoch ≡ state.now.epochs.epoch → (lsn : ℕ) →
        request.now.act ≡ Act.Report lsn →
        result.can_harden ≡ all_in_quorum state.now.log lsn }
    ensures agrees { request.now.head.epoch ≡ state.now.epochs.epoch →
        IfSome (block_of request.now.act) (λ block.
        result.agrees ≡ window_open_to state.now.log block) }
{
    let log = &state.log;
    let in_epoch = request.head().epoch == state.epochs.epoch;
    let (agrees, can_harden) = match request.act() {
        Act::Write { block, .. } | Act::Offer { block } => (!in_epoch || log.agrees(block), true),
        Act::Report { lsn } => (true, !in_epoch || log.can_harden(*lsn)),
        _ => (true, true),
    };
    View {
        hard,
        agrees,
        copies: log.copies(),
        can_harden,
    }
}

// How far the rows of the table allow a get or a pull, if it is allowed, up to the hardened end.
fn reach(table: &Table, decider: &Decider, hard: u64, request: &Request, verdict: Verdict) -> u64
    requires agrees { AgreesWith decider.now table.now }
    requires allowed { verdict ≡ Verdict.Allowed →
        rows_allow table.now.rows (asked_in request.now) ≡ true }
    ensures within { result ≤ hard }
    ensures exact { verdict ≡ Verdict.Allowed → (lsn : ℕ) → lsn ≤ hard →
        rows_allow table.now.rows (asked_at (asked_in request.now) lsn) ≡ nat_le lsn result }
{
    match verdict {
        Verdict::Allowed => decider.reach(table, hard, request),
        Verdict::Denied { .. } => hard,
    }
}

// What the table says to a request on which this is the verdict: how far its rows allow it, and its
// landing zone. The rows are looked at for a get or a pull alone.
pub(crate) fn by_table(
    table: &Table,
    decider: &Decider,
    hard: u64,
    request: &Request,
    verdict: Verdict,
) -> ByTable
    requires agrees { AgreesWith decider.now table.now }
    requires allowed { verdict ≡ Verdict.Allowed →
        rows_allow table.now.rows (asked_in request.now) ≡ true }
    ensures within { result.reach ≤ hard }
    ensures exact { verdict ≡ Verdict.Allowed → reads_the_log (op_of request.now.act) ≡ true →
        (lsn : ℕ) → lsn ≤ hard →
        rows_allow table.now.rows (asked_at (asked_in request.now) lsn) ≡ nat_le lsn result.reach }
    ensures zone { (result.copies ≡ copies_in table.now.zone) ×
        (result.quorum ≡ quorum_in table.now.zone) }
    ensures fits { (1 ≤ result.quorum) × (result.quorum ≤ result.copies) × (result.copies ≤ 6) }
{
    let reach = match request.act() {
        Act::Get { .. } | Act::Pull { .. } => reach(table, decider, hard, request, verdict),
        _ => hard,
    };
    ByTable {
        reach,
        copies: table.copies(),
        quorum: table.quorum(),
    }
}
