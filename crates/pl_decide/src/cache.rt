//! Verdicts of the rows of a table, by their keys.

ghost use Rattle.std.specs.Prelude.{◌≡◌, ◌⊎◌, ◌↔◌, All, Contains, IfSome, IsTrue, Some, option_map};
ghost use Rattle.pl_table.specs.Requests.Asking.{asked_by};
ghost use Rattle.pl_table.specs.Tables.FirstMatch.{first_match_from, rows_allow};
ghost use Rattle.pl_decide.specs.Keys.{asked_with, CachedVerdict};
ghost use Rattle.pl_decide.specs.Agreement.{IsAllowedThrough, IsFoundAt, IsOfRows, IsSpan};

use crate::key::VerdictKey;
use crate::row_verdict::{Found, RowVerdict};
use lru::LruCache;
use pl_table::{Asking, LsnRange, Table};

// What is cached under the key, which becomes the one that was used last.
pub(crate) fn find(
    verdicts: &mut LruCache<VerdictKey, RowVerdict>,
    key: VerdictKey,
) -> Option<RowVerdict>
    ensures found { IfSome result (λ verdict. Contains verdicts.old.entries (key, verdict)) }
    ensures stays { (e : CachedVerdict) → Contains verdicts.new.entries e →
        Contains verdicts.old.entries e }
    ensures most { verdicts.new.cap ≡ verdicts.old.cap }
{
    if verdicts.is_empty() {
        return None;
    }
    verdicts.get(&key).copied()
}

// What is cached under the key. No other becomes the one that was used last.
pub(crate) fn look_at(
    verdicts: &LruCache<VerdictKey, RowVerdict>,
    key: VerdictKey,
) -> Option<RowVerdict>
    ensures found { IfSome result (λ verdict. Contains verdicts.now.entries (key, verdict)) }
{
    if verdicts.is_empty() {
        return None;
    }
    verdicts.peek(&key).copied()
}

// Caches the verdict under the key, in the place of one that is there. If there is no memory for it,
// all stays as it is.
pub(crate) fn keep(
    verdicts: &mut LruCache<VerdictKey, RowVerdict>,
    key: VerdictKey,
    verdict: RowVerdict,
)
    ensures only { (e : CachedVerdict) → Contains verdicts.new.entries e →
        Contains verdicts.old.entries e ⊎ (e ≡ (key, verdict)) }
    ensures most { verdicts.new.cap ≡ verdicts.old.cap }
{
    let _ = verdicts.put(key, verdict);
}

// Whether each of these verdicts is that of the table's rows.
pub(crate) fn are_of_rows(verdicts: &LruCache<VerdictKey, RowVerdict>, table: &Table) -> bool
    requires each { All IsSpan verdicts.now.entries }
    ensures exact { IsTrue result ↔ All (IsOfRows table.now.rows) verdicts.now.entries }
{
    for (key, verdict) in verdicts {
        if !is_of_rows(*key, *verdict, table) {
            return false;
        }
    }
    true
}

// Whether the rows give this verdict, and allow as far as it says.
fn is_of_rows(key: VerdictKey, verdict: RowVerdict, table: &Table) -> bool
    requires span { IsSpan (key, verdict) }
    ensures exact { IsTrue result ↔ IsOfRows table.now.rows (key, verdict) }
{
    is_found_at(key, verdict, table) && has_end(table, key, verdict.allowed_through)
}

// Whether the rows give this verdict at each of its LSNs, which is so if they do at the first and at
// the last of them.
fn is_found_at(key: VerdictKey, verdict: RowVerdict, table: &Table) -> bool
    requires span { IsSpan (key, verdict) }
    ensures exact { IsTrue result ↔ IsFoundAt table.now.rows (key, verdict) }
{
    let (first, last) = ends(verdict.lsns);
    finds(table, key, first, verdict.found) && finds(table, key, last, verdict.found)
}

// The first and the last of the LSNs.
fn ends(lsns: Option<LsnRange>) -> (Option<u64>, Option<u64>)
    ensures first { result.0 ≡ option_map (λ range. range.from) lsns }
    ensures last { result.1 ≡ option_map (λ range. range.to) lsns }
{
    match lsns {
        Some(range) => (Some(range.from), Some(range.to)),
        None => (None, None),
    }
}

// Whether this is what the table finds for what is asked with the key at the LSN.
fn finds(table: &Table, key: VerdictKey, lsn: Option<u64>, found: Found) -> bool
    ensures exact { IsTrue result
        ↔ (first_match_from 1 table.now.rows (asked_with key lsn) ≡ found) }
{
    table.first_match_of(&key.asking(lsn)) == found
}

// Whether the rows allow what is asked with the key as far as this, if it is given.
fn has_end(table: &Table, key: VerdictKey, end: Option<u64>) -> bool
    ensures exact { IsTrue result ↔
        IfSome end (IsAllowedThrough table.now.rows (asked_with key (Some 0))) }
{
    match end {
        Some(end) => allows_through(table, key, end),
        None => true,
    }
}

// Whether the rows allow what is asked with the key up to this LSN, and not above it.
fn allows_through(table: &Table, key: VerdictKey, end: u64) -> bool
    ensures exact { IsTrue result ↔
        IsAllowedThrough table.now.rows (asked_with key (Some 0)) end }
{
    let asking = key.asking(Some(0));
    allows(table, &asking) && table.reach_of(&asking, u64::MAX) == end
}

// Whether the rows allow what is asked.
fn allows(table: &Table, asking: &Asking<'_>) -> bool
    ensures value { result ≡ rows_allow table.now.rows (asked_by asking.now) }
{
    matches!(table.first_match_of(asking), Some((_, true)))
}
