//! The index of a table: which rows can match, by the principal that asks and by the operation.

ghost use Rattle.std.specs.Prelude.{◌≡◌, ◌≤◌, ℕ, IfOk, IfSome, IsSome, List, Some, filter, length, map, nat_le, slice_get, true, All};
ghost use Rattle.pl_table.specs.Tables.Index.{askers, asker_of, can_be, can_match, lists_of, places_by_op, places_from, IsIndexOf};
ghost use Rattle.std.specs.List.{Contains, filter_map};
ghost use Rattle.std.specs.List.Sorted.{IsStrictlyIncreasing};
ghost use Rattle.pl_table.specs.Tables.Bounds.{most_rows};
ghost use Rattle.pl_table.specs.Requests.Asking.{asked_at, asked_by};
ghost use Rattle.pl_table.specs.Tables.FirstMatch.{first_match_from, rows_allow};

use crate::requests::{Asking, Op};
use crate::tables::reach::listed_reach;
use crate::tables::row::Row;
use std::alloc::{AllocError, Global};

// The rows that can match a request of one asker.
#[derive(Drop)]
struct OpLists {
    // For each operation, in the order of the numbers, the places of the rows that can match, rising.
    // A place is below 256 and fits a byte.
    by_op: Vec<Vec<u8>>,
}

// Which rows of a table can match, by the principal that asks and by the operation. A row that names
// no principal can match for every asker, and one that lists no operation for every operation.
#[derive(Drop)]
pub(crate) struct RowIndex {
    // The ids that rows name, rising, each once.
    names: Vec<u32>,
    // For each of these ids in their order, and then for all others.
    by_asker: Vec<OpLists>,
}

impl RowIndex {
    // The index of these rows.
    pub(crate) fn of_rows(alloc: Global, rows: &[Row]) -> Result<RowIndex, AllocError>
        requires few { length rows.now ≤ most_rows }
        ensures ok { IfOk result (IsIndexOf rows.now) }
    {
        let names = names_in(alloc, rows)?;
        let by_asker = lists_by_asker(alloc, &names, rows)?;
        Ok(RowIndex { names, by_asker })
    }

    // The first row that matches: its number, from 1, and whether it allows. Only the rows that can
    // match are looked at.
    pub(crate) fn first_in(&self, rows: &[Row], asking: &Asking<'_>) -> Option<(u16, bool)>
        requires index { IsIndexOf rows.now self.now }
        ensures value { result ≡ first_match_from 1 rows.now (asked_by asking.now) }
    {
        first_listed(self.listed(asking), rows, asking)
    }

    // How far the rows allow a request that they allow: the greatest LSN up to `most` at which they do.
    pub(crate) fn reach_in(&self, rows: &[Row], asking: &Asking<'_>, most: u64) -> u64
        requires index { IsIndexOf rows.now self.now }
        requires allowed { rows_allow rows.now (asked_by asking.now) ≡ true }
        requires number { IsSome asking.now.lsn }
        ensures within { result ≤ most }
        ensures exact { (lsn : ℕ) → lsn ≤ most →
            rows_allow rows.now (asked_at (asked_by asking.now) lsn) ≡ nat_le lsn result }
    {
        listed_reach(self.listed(asking), rows, asking, most)
    }

    // How many rows can match.
    pub(crate) fn count(&self, asking: &Asking<'_>) -> usize
        requires index { (rows : List Row) × IsIndexOf rows self.now }
        ensures value { (rows : List Row) → IsIndexOf rows self.now →
            result ≡ length (filter (can_match (asked_by asking.now)) rows) }
    {
        self.listed(asking).len()
    }

    // The places of the rows that can match, rising.
    fn listed(&self, asking: &Asking<'_>) -> &[u8]
        requires index { (rows : List Row) × IsIndexOf rows self.now }
        ensures value { (rows : List Row) → IsIndexOf rows self.now →
            result.now ≡ places_from 0 (can_match (asked_by asking.now)) rows }
    {
        let place = place_of(&self.names, asking.principal);
        let lists = &self.by_asker[place].by_op;
        &lists[usize::from(asking.op.number()) - 1]
    }
}

impl OpLists {
    // The lists of this asker.
    fn of_asker(alloc: Global, rows: &[Row], asker: Option<u32>) -> Result<OpLists, AllocError>
        requires few { length rows.now ≤ most_rows }
        ensures ok { IfOk result (λ lists. lists_of lists ≡ places_by_op rows.now asker) }
    {
        let mut by_op = Vec::new(alloc);
        for op in &Op::all() {
            by_op.push(places_in(alloc, rows, asker, *op)?)?;
        }
        Ok(OpLists { by_op })
    }
}

// The ids that rows name, rising, each once.
fn names_in(alloc: Global, rows: &[Row]) -> Result<Vec<u32>, AllocError>
    ensures rising { IfOk result (λ names. IsStrictlyIncreasing names.items) }
    ensures each { IfOk result
        (λ names. All (λ row. IfSome row.who (Contains names.items)) rows.now) }
{
    let mut names = named_by(alloc, rows)?;
    names.sort_unstable();
    names.dedup();
    Ok(names)
}

// The id that each row names, of those that name one.
fn named_by(alloc: Global, rows: &[Row]) -> Result<Vec<u32>, AllocError>
    ensures ok { IfOk result (λ names. names.items ≡ filter_map (λ row. row.who) rows.now) }
{
    rows.iter().filter_map(|row| row.who).collect(alloc)
}

fn lists_by_asker(alloc: Global, names: &[u32], rows: &[Row]) -> Result<Vec<OpLists>, AllocError>
    requires few { length rows.now ≤ most_rows }
    ensures ok { IfOk result (λ lists. map lists_of lists.items ≡ map (places_by_op rows.now)
        (askers names.now)) }
{
    let mut lists = Vec::new(alloc);
    for name in names {
        lists.push(OpLists::of_asker(alloc, rows, Some(*name))?)?;
    }
    lists.push(OpLists::of_asker(alloc, rows, None)?)?;
    Ok(lists)
}

// The places of the rows that can match, rising.
fn places_in(alloc: Global, rows: &[Row], asker: Option<u32>, op: Op) -> Result<Vec<u8>, AllocError>
    requires few { length rows.now ≤ most_rows }
    ensures ok { IfOk result (λ list. list.items ≡ places_from 0 (can_be asker op) rows.now) }
{
    let mut list = Vec::new(alloc);
    for (place, row) in rows.iter().enumerate() {
        if row.can_be(asker, op) {
            list.push(place as u8)?;
        }
    }
    Ok(list)
}

// The place of the id, if it and the names before it follow one another without a gap.
fn place_in_a_row(names: &[u32], id: u32) -> Option<usize>
    ensures found { IfSome result (λ place. slice_get names.now place ≡ Some id) }
{
    let place = id.checked_sub(*names.first()?)? as usize;
    if *names.get(place)? == id {
        Some(place)
    } else {
        None
    }
}

// The place of the asker: one step if ids follow one another, else about log n steps for n names.
fn place_of(names: &[u32], id: u32) -> usize
    requires { IsStrictlyIncreasing names.now }
    ensures value { slice_get (askers names.now) result ≡ Some (asker_of id names.now) }
{
    if let Some(place) = place_in_a_row(names, id) {
        return place;
    }
    match names.binary_search(&id) {
        Ok(place) => place,
        Err(_) => names.len(),
    }
}

// The first row that matches, if these are the places of all that can match: its number, from 1,
// and whether it allows.
fn first_listed(list: &[u8], rows: &[Row], asking: &Asking<'_>) -> Option<(u16, bool)>
    requires listed { list.now ≡ places_from 0 (can_match (asked_by asking.now)) rows.now }
    ensures value { result ≡ first_match_from 1 rows.now (asked_by asking.now) }
{
    let mut left = list;
    while let Some((place, others)) = left.split_first() {
        let row = &rows[usize::from(*place)];
        if row.matches_listed(asking) {
            return Some((u16::from(*place) + 1, row.allows));
        }
        left = others;
    }
    None
}
