//! The written table.

ghost use Rattle.std.specs.Prelude.{◌≡◌, ◌↔◌, ◌≤◌, ℕ, All, Contains, IfNone, IfOk, IfSome, IsSome, false, filter, length, map, nat_le, true};
ghost use Rattle.pl_table.specs.Requests.Acts.{number_of};
ghost use Rattle.pl_table.specs.Requests.Asking.{asked_at, asked_by, asked_in};
ghost use Rattle.pl_table.specs.Tables.FirstMatch.{IsFirstMatch, first_match_from, rows_allow};
ghost use Rattle.pl_table.specs.Tables.Index.{can_match};
ghost use Rattle.pl_table.specs.Tables.Reach.{any_ends, AreAlike, IsAtOne};
ghost use Rattle.pl_table.specs.Tables.Row.{row_matches};
ghost use Rattle.pl_table.specs.Tables.Table.{IsTable, token_of};
ghost use Rattle.pl_table.specs.Tables.Zone.{copies_in, quorum_in};

use crate::requests::{Asking, Request};
use crate::tables::index::RowIndex;
use crate::tables::reach::{LsnRange, lsns_between_ends};
use crate::tables::row::Row;
use crate::tables::zone::Zone;
use std::alloc::{AllocError, Global};
use std::fmt;
use std::marker::Model;

/// The most principals of a table.
pub const MOST_PRINCIPALS: usize = 64;

/// The most rows of a table.
pub const MOST_ROWS: usize = 256;

/// A principal that may ask. The debug text leaves the token out.
#[derive(Clone, Copy, PartialEq, Eq)]
pub struct Principal {
    /// The id by which rows and requests name the principal.
    pub id: u32,
    /// The secret that shows that a request is the principal's.
    pub token: [u8; 16],
}

impl fmt::Debug for Principal {
    fn fmt<W: fmt::Write>(&self, f: &mut fmt::Formatter<W>) -> fmt::Result {
        f.debug_struct("Principal")
            .field("id", &self.id)
            .finish_non_exhaustive()
    }
}

/// The written table: 1 to 64 principals with distinct ids, and at most 256 rows in their order. A row
/// names only a listed principal, its range has a partition, it ends at an LSN if at all, and somebody
/// may set the table: for some principal the first row that matches its set_table as operator allows
/// it. And the landing zone that it asks for, of three copies or six.
#[derive(Drop)]
pub struct Table {
    principals: Vec<Principal>,
    rows: Vec<Row>,
    zone: Zone,
    // Whether some row ends at an LSN.
    has_ends: bool,
    // Which rows can match, by principal and by operation.
    index: RowIndex,
}

impl fmt::Debug for Table {
    fn fmt<W: fmt::Write>(&self, f: &mut fmt::Formatter<W>) -> fmt::Result {
        f.debug_struct("Table")
            .field("principals", &self.principals)
            .field("rows", &self.rows)
            .field("zone", &self.zone)
            .finish()
    }
}

impl Model for Table {
    ghost use Rattle.pl_table.specs.Tables.Table.{WrittenTable, IsTable};
    ghost use Rattle.std.specs.Prelude.{◌≡◌};
    ghost use Rattle.pl_table.specs.Tables.Index.{IsIndexOf};
    ghost use Rattle.pl_table.specs.Tables.Reach.{any_ends};

    ghost Value = { WrittenTable };

    ghost view = { λ t.
        record { principals = t.principals.items; rows = t.rows.items; zone = t.zone } };

    ghost invariant = { λ t.
        IsTable (record { principals = t.principals.items; rows = t.rows.items; zone = t.zone })
        × IsIndexOf t.rows.items t.index
        × (t.has_ends ≡ any_ends t.rows.items) };
}

impl Table {
    // The table of these principals, rows and zone, with its index.
    pub(crate) fn of_parts(
        principals: Vec<Principal>,
        rows: Vec<Row>,
        zone: Zone,
    ) -> Result<Table, AllocError>
        requires { IsTable
            (record { principals = principals.items; rows = rows.items; zone = zone }) }
        ensures ok { IfOk result
            (λ t. t ≡ record { principals = principals.items; rows = rows.items; zone = zone }) }
    {
        let index = RowIndex::of_rows(*rows.allocator(), &rows)?;
        let has_ends = any_ends(&rows);
        Ok(Table {
            principals,
            rows,
            zone,
            has_ends,
            index,
        })
    }

    /// The principals, 1 to 64, in the order in which they are listed.
    pub fn principals(&self) -> &[Principal]
        // What is listed.
        ensures value { result.now ≡ self.now.principals }
        // The table keeps its rules (`IsTable`).
        ensures valid { IsTable self.now }
    {
        &self.principals
    }

    /// The rows, at most 256, in their order. The first has the number 1.
    pub fn rows(&self) -> &[Row]
        // What is listed.
        ensures value { result.now ≡ self.now.rows }
        // The table keeps its rules (`IsTable`).
        ensures valid { IsTable self.now }
    {
        &self.rows
    }

    /// How many copies the landing zone has in the epochs that begin under this table, 3 or 6.
    pub fn copies(&self) -> u8
        // The copies of the table's zone (`copies_in`).
        ensures value { result ≡ copies_in self.now.zone }
        // 1 to 6.
        ensures fits { (1 ≤ result) × (result ≤ 6) }
    {
        self.zone.copies()
    }

    /// How many of these copies harden an LSN, 2 or 4.
    pub fn quorum(&self) -> u8
        // The quorum of the table's zone (`quorum_in`).
        ensures value { result ≡ quorum_in self.now.zone }
        // 1 to the number of copies.
        ensures fits { (1 ≤ result) × (result ≤ copies_in self.now.zone) }
    {
        self.zone.quorum()
    }

    /// An equal table, in memory of its own. `Err` if an allocation failed.
    pub fn clone_table(&self) -> Result<Table, AllocError>
        // If no allocation fails, an equal table.
        ensures ok { IfOk result (λ t. t ≡ self.now) }
    {
        let alloc = *self.rows.allocator();
        let principals = copy_of_principals(alloc, &self.principals)?;
        let rows = copy_of_rows(alloc, &self.rows)?;
        Table::of_parts(principals, rows, self.zone)
    }

    /// The first row that matches the request: its number, from 1, and whether it allows. `None`
    /// if no row matches. Only the rows are tested that can match a request of the principal for
    /// the operation, each once, up to that one. Nothing is allocated.
    pub fn first_match(&self, request: &Request) -> Option<(u16, bool)>
        // The number of the first row that matches, and whether it allows (`first_match_from`).
        ensures value { result ≡ first_match_from 1 self.now.rows (asked_in request.now) }
        // That row matches, and no row above it does.
        ensures some { IfSome result (IsFirstMatch self.now.rows (asked_in request.now)) }
        // If it is `None`, no row matches.
        ensures none { IfNone result
            (All (λ row. row_matches row (asked_in request.now) ≡ false) self.now.rows) }
        // The table keeps its rules (`IsTable`).
        ensures valid { IsTable self.now }
    {
        self.index.first_in(&self.rows, &request.asking())
    }

    /// The first row that matches what is asked, as [`Table::first_match`] finds it for a request.
    pub fn first_match_of(&self, asking: &Asking<'_>) -> Option<(u16, bool)>
        // The number of the first row that matches what is asked, and whether it allows
        // (`first_match_from`).
        ensures value { result ≡ first_match_from 1 self.now.rows (asked_by asking.now) }
    {
        self.index.first_in(&self.rows, asking)
    }

    /// How far the rows allow a request that they allow: the greatest LSN up to `most` at which they
    /// do. They allow it at each lower LSN too. If no row ends, or the request names no LSN,
    /// that is `most`. [`Table::first_match`] reports whether they allow it. Nothing is allocated.
    pub fn reach(&self, request: &Request, most: u64) -> u64
        // The rows allow the request.
        requires allowed { rows_allow self.now.rows (asked_in request.now) ≡ true }
        // A number up to `most`.
        ensures within { result ≤ most }
        // Of the LSNs up to `most`, the rows allow the request at those up to this number, and at
        // no other (`rows_allow`, `asked_at`).
        ensures exact { (lsn : ℕ) → lsn ≤ most →
            rows_allow self.now.rows (asked_at (asked_in request.now) lsn) ≡ nat_le lsn result }
    {
        if !self.has_ends {
            return most;
        }
        self.reach_of(&request.asking(), most)
    }

    /// How far the rows allow what is asked, as [`Table::reach`] finds it for a request.
    pub fn reach_of(&self, asking: &Asking<'_>, most: u64) -> u64
        // The rows allow what is asked.
        requires allowed { rows_allow self.now.rows (asked_by asking.now) ≡ true }
        // A number up to `most`.
        ensures within { result ≤ most }
        // Of the LSNs up to `most`, the rows allow what is asked at those up to this number, and at
        // no other (`rows_allow`, `asked_at`).
        ensures exact { (lsn : ℕ) → lsn ≤ most →
            rows_allow self.now.rows (asked_at (asked_by asking.now) lsn) ≡ nat_le lsn result }
    {
        if !self.has_ends {
            return most;
        }
        match asking.lsn {
            Some(_) => self.index.reach_in(&self.rows, asking, most),
            None => most,
        }
    }

    /// Whether some row ends at an LSN.
    pub fn has_ends(&self) -> bool
        // Whether some row ends at an LSN (`any_ends`).
        ensures value { result ≡ any_ends self.now.rows }
    {
        self.has_ends
    }

    /// A range of LSNs around that of the request, at each of which [`Table::first_match`] finds for it
    /// what it finds at its own: no row ends between two of them. `None` if the request names no
    /// LSN. If no row ends at all no row is looked at.
    pub fn lsns_alike(&self, request: &Request) -> Option<LsnRange>
        // A range with the request's LSN, or `None` if the request names none (`IsAtOne`).
        ensures own { IsAtOne result (number_of request.now.act) }
        // At each LSN of the range `first_match` finds the same (`AreAlike`).
        ensures alike { IfSome result (AreAlike self.now.rows (asked_in request.now)) }
    {
        let lsn = request.act().lsn()?;
        if !self.has_ends {
            return Some(LsnRange {
                from: 0,
                to: u64::MAX,
            });
        }
        Some(lsns_between_ends(&self.rows, lsn))
    }

    /// How many rows can match the request: those that name nobody or its principal, and list no operation
    /// or its own. [`Table::first_match`] tests no others. It costs as much as finding their list does.
    pub fn candidates(&self, request: &Request) -> usize
        // How many rows can match the request (`can_match`): the most that `first_match` tests.
        ensures value { result ≡ length (filter (can_match (asked_in request.now)) self.now.rows) }
    {
        self.index.count(&request.asking())
    }

    /// The token listed for the id, or `None` if the id is not listed.
    pub fn token(&self, id: u32) -> Option<[u8; 16]>
        // The token listed for the id (`token_of`).
        ensures value { result ≡ token_of id self.now.principals }
        // It is `None` exactly if the id is not listed.
        ensures found { IsSome result ↔ Contains (map (λ p. p.id) self.now.principals) id }

        // An id has one token, since no two principals have the same id.
        ensures only { All (λ p. p.id ≡ id → result ≡ Some p.token) self.now.principals }
    {
        token_in(&self.principals, id)
    }
}

fn copy_of_principals(alloc: Global, principals: &[Principal]) -> Result<Vec<Principal>, AllocError>
    ensures ok { IfOk result (λ copy. copy.items ≡ principals.now) }
{
    principals.iter().copied().collect(alloc)
}

fn copy_of_rows(alloc: Global, rows: &[Row]) -> Result<Vec<Row>, AllocError>
    ensures ok { IfOk result (λ copy. copy.items ≡ rows.now) }
{
    let mut copy = Vec::new(alloc);
    for row in rows {
        copy.push(row.clone_row()?)?;
    }
    Ok(copy)
}

fn any_ends(rows: &[Row]) -> bool
    ensures value { result ≡ any_ends rows.now }
{
    rows.iter().any(|row| row.through.is_some())
}

fn token_in(principals: &[Principal], id: u32) -> Option<[u8; 16]>
    ensures value { result ≡ token_of id principals.now }
{
    for principal in principals {
        if principal.id == id {
            return Some(principal.token);
        }
    }
    None
}
