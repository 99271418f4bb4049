//! How far rows allow what is asked, and at which LSNs they find the same row for it.

ghost use Rattle.std.specs.Prelude.{◌≡◌, ◌≤◌, ℕ, All, IsSome, true, nat_le};
ghost use Rattle.pl_table.specs.Requests.Asking.{asked_at, asked_by};
ghost use Rattle.pl_table.specs.Tables.FirstMatch.{rows_allow};
ghost use Rattle.pl_table.specs.Tables.Index.{can_match, places_from};
ghost use Rattle.pl_table.specs.Tables.Reach.{Narrows, NoEndBetween};

use crate::requests::Asking;
use crate::tables::row::Row;

/// The LSNs from `from` to `to`, both included.
#[derive(Clone, Copy, Debug, PartialEq, Eq)]
pub struct LsnRange {
    /// The first LSN.
    pub from: u64,
    /// The last LSN.
    pub to: u64,
}

impl LsnRange {
    // Those of the LSNs that are on one side of the end with this one.
    fn cut(self, through: Option<u64>, lsn: u64) -> LsnRange
        requires at { (self.from ≤ lsn) × (lsn ≤ self.to) }
        ensures at { (result.from ≤ lsn) × (lsn ≤ result.to) }
        ensures within { (self.from ≤ result.from) × (result.to ≤ self.to) }
        ensures apart { (other : ℕ) → result.from ≤ other → other ≤ result.to →
            NoEndBetween lsn other through }
    {
        match through {
            Some(end) if lsn <= end => LsnRange {
                from: self.from,
                to: self.to.min(end),
            },
            Some(end) => LsnRange {
                from: self.from.max(end + 1),
                to: self.to,
            },
            None => self,
        }
    }
}

// The LSNs around this one between which no row ends.
pub(crate) fn lsns_between_ends(rows: &[Row], lsn: u64) -> LsnRange
    ensures at { (result.from ≤ lsn) × (lsn ≤ result.to) }
    ensures apart { (other : ℕ) → result.from ≤ other → other ≤ result.to →
        All (λ row. NoEndBetween lsn other row.through) rows.now }
{
    let mut lsns = LsnRange {
        from: 0,
        to: u64::MAX,
    };
    for row in rows {
        lsns = lsns.cut(row.through, lsn);
    }
    lsns
}

// Up to `low` the rows that were seen allow, above `high` they do not, and none of them matches between.
#[derive(Clone, Copy)]
struct Reach {
    low: u64,
    high: u64,
}

impl Reach {
    // The same, with one row more, which is about the request.
    fn after(self, row: &Row) -> Reach
        requires order { self.low ≤ self.high }
        ensures after { Narrows row.now self.low self.high result.low result.high }
    {
        let open = if row.allows { self.high } else { self.low };
        let end = row.through.unwrap_or(open).max(self.low).min(self.high);
        if row.allows {
            Reach {
                low: end,
                high: self.high,
            }
        } else {
            Reach {
                low: self.low,
                high: end,
            }
        }
    }
}

// How far the rows allow a request that they allow, if these are the places of all that can match:
// the greatest LSN up to `most` at which they do.
pub(crate) fn listed_reach(list: &[u8], rows: &[Row], asking: &Asking<'_>, most: u64) -> u64
    requires listed { list.now ≡ places_from 0 (can_match (asked_by asking.now)) rows.now }
    requires allowed { rows_allow rows.now (asked_by asking.now) ≡ true }
    requires number { IsSome asking.now.lsn }
    ensures within { result ≤ most }
    ensures exact { (lsn : ℕ) → lsn ≤ most →
        rows_allow rows.now (asked_at (asked_by asking.now) lsn) ≡ nat_le lsn result }
{
    let mut reach = Reach { low: 0, high: most };
    let mut rest = list;
    while let Some((place, others)) = rest.split_first() {
        if reach.low == reach.high {
            return reach.low;
        }
        let row = &rows[usize::from(*place)];
        if row.is_about(asking) {
            reach = reach.after(row);
        }
        rest = others;
    }
    reach.low
}
