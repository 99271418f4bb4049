//! Reading a table from its text.

ghost use Rattle.std.specs.Prelude.{◌≡◌, Err, IsUtf8, ◌==◌, ◌&&◌, ◌<◌, ◌≤◌, is_some, nat_eq, length, map, All, find, filter_map, option_copied, IfErr, IfOk, Ok, OnOk};
ghost use Rattle.std.specs.List.{list_all, list_any, IsDistinct};
ghost use Rattle.toml.specs.View.{view, table_view};
ghost use Rattle.pl_block.specs.declared.fault.Failed.TheVariants.{NoMemory};
ghost use Rattle.pl_table.specs.Tables.Bounds.{most_principals, most_rows};
ghost use Rattle.pl_block.specs.Faults.{Gives};
ghost use Rattle.pl_table.specs.Tables.Part.{id_under, token_under, principal_of, has_words, has_numbers, row_of};
ghost use Rattle.pl_table.specs.Tables.Tree.{is_principal, is_row};
ghost use Rattle.pl_table.specs.Tables.Table.{IsRowOf};
ghost use Rattle.pl_table.specs.Tables.TableText.{listed_of, listed_in_tree, counts_of, have_own_ids, principals_of, rows_of, listed_table, table_reading};
ghost use Rattle.pl_table.specs.Tables.Setting.{is_about_setting, allows, somebody_sets};

use crate::requests::{Op, Role};
use crate::tables::fault::{ReadFault, TableFault};
use crate::tables::row::Row;
use crate::tables::table::{MOST_PRINCIPALS, MOST_ROWS, Principal, Table};
use crate::tables::text::{part, tree};
use crate::tables::zone::Zone;
use std::alloc::{AllocError, Global};
use toml::{Table as Tree, Value};

/// Reads a table from its text. The text is TOML: an array of tables `principal`, each with `id` and
/// `token`, an array of tables `row`, each with `verdict` and any of `who`, `role`, `op`, `from` with
/// `to`, and `through`; and the numbers `copies` and `quorum`, or neither. `Malformed` has the fault
/// of the least code, whichever principal or row it is in.
/// `NoMemory` is returned if an allocation failed. The text may have any length.
#[tactic(auto, unfolding(crate::specs::Tables::TableText::table_reading))]
pub fn read_table(alloc: Global, text: &[u8]) -> Result<Table, ReadFault>
    // The table that the text reads as, or its first fault (`table_reading`), or out of memory.
    ensures exact { Gives (λ t. t) result (table_reading text.now) }
    // Memory runs out only if the text is UTF-8.
    ensures no_memory { result ≡ Err NoMemory → IsUtf8 text.now }
{
    let tree = tree::read_tree(alloc, text)?;
    let lists = lists_in(&tree)?;
    read_lists(alloc, lists.principals, lists.rows, lists.zone)
}

// The principals and the rows that a tree lists, and its zone, if the two numbers are those of one.
#[derive(Clone, Copy, Drop)]
struct Lists<'a> {
    principals: &'a [Value],
    rows: &'a [Value],
    zone: Option<Zone>,
}

fn each_is_principal(listed: &[Value]) -> bool
    ensures value { result ≡ list_all (λ v. is_principal (view v)) listed.now }
{
    listed.iter().all(tree::is_principal)
}

fn each_has_id(listed: &[Value]) -> bool
    ensures value { result ≡ list_all (λ v. is_some (id_under (view v))) listed.now }
{
    listed
        .iter()
        .all(|principal| part::id_under(principal).is_some())
}

fn each_has_token(listed: &[Value]) -> bool
    ensures value { result ≡ list_all (λ v. is_some (token_under (view v))) listed.now }
{
    listed
        .iter()
        .all(|principal| part::token_under(principal).is_some())
}

fn principals_from(alloc: Global, listed: &[Value]) -> Result<Vec<Principal>, AllocError>
    ensures ok { IfOk result (λ ps. ps.items ≡ filter_map (λ v. principal_of (view v)) listed.now) }
{
    listed.iter().filter_map(part::principal_of).collect(alloc)
}

fn is_listed_by(principals: &[Principal], id: u32) -> bool
    ensures value { result ≡ list_any (λ p. id == p.id) principals.now }
{
    principals.iter().any(|principal| id == principal.id)
}

fn have_own_ids(principals: &[Principal]) -> bool
    ensures value { result ≡ have_own_ids principals.now }
{
    let mut rest = principals;
    while let Some((first, others)) = rest.split_first() {
        if is_listed_by(others, first.id) {
            return false;
        }
        rest = others;
    }
    true
}

// The principals, each with its faults in the order of their codes.
fn read_principals(alloc: Global, listed: &[Value]) -> Result<Vec<Principal>, ReadFault>
    ensures exact { Gives (λ ps. ps.items) result (principals_of (map view listed.now)) }
    ensures members { IfOk result (λ ps. length ps.items ≡ length listed.now) }
    ensures only { IfOk result (λ ps. IsDistinct nat_eq (map (λ p. p.id) ps.items)) }
{
    if !each_is_principal(listed) {
        return Err(ReadFault::Malformed(TableFault::PrincipalKeys));
    }
    if !each_has_id(listed) {
        return Err(ReadFault::Malformed(TableFault::PrincipalId));
    }
    if !each_has_token(listed) {
        return Err(ReadFault::Malformed(TableFault::PrincipalToken));
    }
    let principals = principals_from(alloc, listed)?;
    if !have_own_ids(&principals) {
        return Err(ReadFault::Malformed(TableFault::RepeatedId));
    }
    Ok(principals)
}

fn each_is_row(listed: &[Value]) -> bool
    ensures value { result ≡ list_all (λ v. is_row (view v)) listed.now }
{
    listed.iter().all(tree::is_row)
}

fn each_has_words(listed: &[Value]) -> bool
    ensures value { result ≡ list_all (λ v. has_words (view v)) listed.now }
{
    listed.iter().all(part::has_words)
}

fn each_has_numbers(principals: &[Principal], listed: &[Value]) -> bool
    ensures value { result ≡ list_all (λ v. has_numbers principals.now (view v)) listed.now }
{
    listed.iter().all(|row| part::has_numbers(principals, row))
}

fn rows_from(
    alloc: Global,
    principals: &[Principal],
    listed: &[Value],
) -> Result<Vec<Row>, AllocError>
    ensures ok { IfOk result
        (λ rows. rows.items ≡ filter_map (λ v. row_of principals.now (view v)) listed.now) }
{
    let mut rows = Vec::new(alloc);
    for value in listed {
        if let Some(row) = part::row_of(alloc, principals, value)? {
            rows.push(row)?;
        }
    }
    Ok(rows)
}

// The rows, each with its faults in the order of their codes.
fn read_rows(
    alloc: Global,
    principals: &[Principal],
    listed: &[Value],
) -> Result<Vec<Row>, ReadFault>
    ensures exact { Gives (λ rows. rows.items) result
        (rows_of principals.now (map view listed.now)) }
    ensures members { IfOk result (λ rows. length rows.items ≤ length listed.now) }
    ensures each { IfOk result (λ rows. All (IsRowOf principals.now) rows.items) }
{
    if !each_is_row(listed) {
        return Err(ReadFault::Malformed(TableFault::RowKeys));
    }
    if !each_has_words(listed) {
        return Err(ReadFault::Malformed(TableFault::RowWord));
    }
    if !each_has_numbers(principals, listed) {
        return Err(ReadFault::Malformed(TableFault::RowNumber));
    }
    Ok(rows_from(alloc, principals, listed)?)
}

// The first row about the principal's set_table as operator.
fn row_on_setting(rows: &[Row], id: u32) -> Option<&Row>
    ensures value { option_copied result ≡ find (is_about_setting id) rows.now }
{
    rows.iter()
        .find(|row| row.speaks_of(id, Role::Operator, Op::SetTable))
}

fn may_set_table(rows: &[Row], id: u32) -> bool
    ensures value { result ≡ allows (find (is_about_setting id) rows.now) }
{
    match row_on_setting(rows, id) {
        Some(row) => row.allows,
        None => false,
    }
}

#[tactic(auto, unfolding(crate::specs::Tables::Setting::somebody_sets))]
fn somebody_sets(principals: &[Principal], rows: &[Row]) -> bool
    ensures value { result ≡ somebody_sets principals.now rows.now }
{
    principals
        .iter()
        .any(|principal| may_set_table(rows, principal.id))
}

// The lists and the zone of a tree that has no other key.
#[tactic(auto, unfolding(crate::specs::Tables::TableText::listed_in_tree))]
fn lists_in(tree: &Tree) -> Result<Lists<'_>, TableFault>
    ensures ok { IfOk result (λ l. listed_in_tree (table_view tree.now)
        ≡ Ok (listed_of (map view l.principals.now) (map view l.rows.now) l.zone)) }
    ensures err { IfErr result (λ fault. listed_in_tree (table_view tree.now) ≡ Err fault) }
{
    if !tree::has_top_keys(tree) {
        return Err(TableFault::UnknownKey);
    }
    match (
        tree::tables_under(tree, "principal"),
        tree::tables_under(tree, "row"),
    ) {
        (Some(principals), Some(rows)) => Ok(Lists {
            principals,
            rows,
            zone: part::zone_under(tree),
        }),
        _ => Err(TableFault::UnknownKey),
    }
}

#[tactic(auto, unfolding(crate::specs::Tables::TableText::counts_of))]
fn check_counts(principals: usize, rows: usize) -> Result<(), TableFault>
    ensures value { result ≡ counts_of principals rows }
    ensures some { OnOk result (0 < principals) }
    ensures few { OnOk result (principals ≤ most_principals) }
    ensures few_rows { OnOk result (rows ≤ most_rows) }
{
    if principals == 0 || MOST_PRINCIPALS < principals {
        return Err(TableFault::PrincipalCount);
    }
    if MOST_ROWS < rows {
        return Err(TableFault::RowCount);
    }
    Ok(())
}

// The table of the two lists and the zone.
#[tactic(auto, unfolding(crate::specs::Tables::TableText::listed_table))]
fn read_lists(
    alloc: Global,
    principals: &[Value],
    rows: &[Value],
    zone: Option<Zone>,
) -> Result<Table, ReadFault>
    ensures exact { Gives (λ t. t) result
        (listed_table (listed_of (map view principals.now) (map view rows.now) zone)) }
{
    check_counts(principals.len(), rows.len())?;
    let principals = read_principals(alloc, principals)?;
    let rows = read_rows(alloc, &principals, rows)?;
    if !somebody_sets(&principals, &rows) {
        return Err(ReadFault::Malformed(TableFault::NoOperator));
    }
    let Some(zone) = zone else {
        return Err(ReadFault::Malformed(TableFault::BadZone));
    };
    Ok(Table::of_parts(principals, rows, zone)?)
}
