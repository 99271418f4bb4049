//! How far the rows of a table allow a get or a pull.

ghost use Rattle.std.specs.Prelude.{◌≡◌, ◌≤◌, IfSome, Some, true};
ghost use Rattle.pl_table.specs.Requests.Acts.{number_of};
ghost use Rattle.pl_table.specs.Requests.Asking.{asked_in};
ghost use Rattle.pl_table.specs.Tables.FirstMatch.{first_match_from, rows_allow};
ghost use Rattle.pl_table.specs.Tables.Reach.{AreAlike, IsAtOne};
ghost use Rattle.pl_decide.specs.Keys.{asked_with, IsKeyOf};
ghost use Rattle.pl_decide.specs.Agreement.{IsAllowedThrough, IsOfRows, IsSpan};

use crate::key::VerdictKey;
use crate::row_verdict::{Found, RowVerdict};
use pl_table::{Act, LsnRange, Request, Table};

// The LSN that a get or a pull names.
pub(crate) fn lsn_read(act: &Act) -> Option<u64>
    ensures some { IfSome result (λ lsn. number_of act.now ≡ Some lsn) }
{
    match act {
        Act::Get { lsn, .. } | Act::Pull { lsn, .. } => Some(*lsn),
        _ => None,
    }
}

// Whether a row that ends at an LSN has this number.
pub(crate) fn ends(table: &Table, row: u16) -> bool {
    match table.rows().get(usize::from(row).wrapping_sub(1)) {
        Some(row) => row.through.is_some(),
        None => false,
    }
}

// The verdict that is cached of what was found for a request with this key, with the LSNs at which it is
// the same.
pub(crate) fn verdict_of(
    table: &Table,
    request: &Request,
    key: VerdictKey,
    found: Found,
) -> RowVerdict
    requires key { IsKeyOf key (asked_in request.now) }
    requires found { found ≡ first_match_from 1 table.now.rows (asked_in request.now) }
    ensures span { IsSpan (key, result) }
    ensures rows { IsOfRows table.now.rows (key, result) }
{
    let lsns = table.lsns_alike(request);
    let allowed_through = end_of(table, request, key, found, lsns);
    RowVerdict {
        found,
        lsns,
        allowed_through,
    }
}

// How far the rows allow a get or a pull that they allow at each of these LSNs.
fn end_of(
    table: &Table,
    request: &Request,
    key: VerdictKey,
    found: Found,
    lsns: Option<LsnRange>,
) -> Option<u64>
    requires key { IsKeyOf key (asked_in request.now) }
    requires found { found ≡ first_match_from 1 table.now.rows (asked_in request.now) }
    requires own { IsAtOne lsns (number_of request.now.act) }
    requires alike { IfSome lsns (AreAlike table.now.rows (asked_in request.now)) }
    ensures exact { IfSome result
        (IsAllowedThrough table.now.rows (asked_with key (Some 0))) }
{
    match (lsn_read(request.act()), lsns, found) {
        (Some(_), Some(lsns), Some((_, true))) => Some(last_allowed(table, request, lsns)),
        _ => None,
    }
}

// The greatest LSN at which the rows allow a request that they allow at each of these LSNs. If these
// go up to the greatest LSN there is, no row is looked at.
fn last_allowed(table: &Table, request: &Request, lsns: LsnRange) -> u64
    requires allowed { rows_allow table.now.rows (asked_in request.now) ≡ true }
    requires order { lsns.from ≤ lsns.to }
    requires alike { AreAlike table.now.rows (asked_in request.now) lsns }
    ensures exact { IsAllowedThrough table.now.rows (asked_in request.now) result }
{
    if lsns.to < u64::MAX {
        return table.reach(request, u64::MAX);
    }
    // Proof only: this does nothing.
    pl_table::laws::lower_lsns_are_allowed();
    u64::MAX
}
