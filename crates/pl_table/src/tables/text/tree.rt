//! The TOML tree of a text, and the keys of its tables.

ghost use Rattle.std.specs.Prelude.{◌≡◌, Err, IsUtf8, OnOk, is_some, map, option_map, string_bytes};
ghost use Rattle.std.specs.List.{list_all, list_any};
ghost use Rattle.std.specs.BTreeMap.{keys};
ghost use Rattle.std.specs.Str.{bytes_eq};
ghost use Rattle.toml.specs.Data.{get, get_member};
ghost use Rattle.toml.specs.View.{view, table_view};
ghost use Rattle.pl_block.specs.Faults.{Gives};
ghost use Rattle.pl_block.specs.declared.fault.Failed.TheVariants.{NoMemory};
ghost use Rattle.pl_table.specs.Tables.Tree.{tree_of, has_only, is_table, tables_in, tables_under, is_one_of, top_keys, principal_keys, row_keys, is_principal, is_row};

use crate::tables::fault::{ReadFault, TableFault};
use std::alloc::Global;
use toml::{Table as Tree, Value};

// The tree of the text.
#[tactic(auto, unfolding(crate::specs::Tables::Tree::tree_of))]
pub(crate) fn read_tree(alloc: Global, text: &[u8]) -> Result<Tree, ReadFault>
    ensures exact { Gives (λ t. table_view t) result (tree_of text.now) }
    ensures ok { OnOk result (IsUtf8 text.now) }
    ensures no_memory { result ≡ Err NoMemory → IsUtf8 text.now }
{
    let Ok(text) = std::str::from_utf8(text) else {
        return Err(ReadFault::Malformed(TableFault::NoDocument));
    };
    match toml::table_from_str(alloc, text) {
        Ok(tree) => Ok(tree),
        Err(e) if e.is_memory() => Err(ReadFault::NoMemory),
        Err(_) => Err(ReadFault::Malformed(TableFault::NoDocument)),
    }
}

const TOP_KEYS: [&str; 4] = ["principal", "row", "copies", "quorum"];

const PRINCIPAL_KEYS: [&str; 2] = ["id", "token"];

const ROW_KEYS: [&str; 7] = ["verdict", "who", "role", "op", "from", "to", "through"];

fn is_one_of(names: &[&str], key: &str) -> bool
    ensures value { result ≡ list_any (λ name. bytes_eq key.now name.now) names.now }
{
    names.iter().any(|name| key == *name)
}

fn each_is_one_of(names: &[&str], members: &Tree) -> bool
    ensures value { result
        ≡ list_all (λ k. list_any (λ name. bytes_eq (string_bytes k) name.now) names.now)
        (keys members.now) }
{
    members.keys().all(|key| is_one_of(names, key.as_str()))
}

// Whether the table has no keys but these.
fn has_keys_of(names: &[&str], members: &Tree) -> bool
    ensures value { result
        ≡ list_all (λ k. is_one_of (map (λ name. name.now) names.now) (string_bytes k))
        (keys members.now) }
{
    each_is_one_of(names, members)
}

// Whether the text has no keys but those of the format.
#[tactic(auto, unfolding(crate::specs::Tables::Tree::top_keys))]
pub(crate) fn has_top_keys(tree: &Tree) -> bool
    ensures value { result ≡ list_all (λ k. is_one_of top_keys (string_bytes k)) (keys tree.now) }
{
    has_keys_of(&TOP_KEYS, tree)
}

// Whether the value is a table that has no keys but these.
#[tactic(auto, unfolding(crate::specs::Tables::Tree::has_only))]
fn has_only(names: &[&str], value: &Value) -> bool
    ensures value { result ≡ has_only (map (λ name. name.now) names.now) (view value.now) }
{
    match value {
        Value::Table(members) => has_keys_of(names, members),
        _ => false,
    }
}

#[tactic(auto, unfolding(crate::specs::Tables::Tree::is_table))]
fn is_table(value: &Value) -> bool
    ensures value { result ≡ is_table (view value.now) }
{
    value.is_table()
}

fn are_tables(values: &[Value]) -> bool
    ensures value { result ≡ list_all (λ v. is_table (view v)) values.now }
{
    values.iter().all(is_table)
}

// The tables that the value lists, if it is an array of tables.
#[tactic(auto, unfolding(crate::specs::Tables::Tree::tables_in))]
fn tables_in(value: &Value) -> Option<&[Value]>
    ensures value { option_map (λ vs. map view vs.now) result ≡ tables_in (view value.now) }
{
    match value {
        Value::Array(values) => {
            if are_tables(values) {
                Some(values)
            } else {
                None
            }
        }
        _ => None,
    }
}

// The tables under the key: none if the key is absent.
#[tactic(auto, unfolding(crate::specs::Tables::Tree::tables_under))]
pub(crate) fn tables_under<'a>(tree: &'a Tree, key: &str) -> Option<&'a [Value]>
    ensures value { option_map (λ vs. map view vs.now) result
        ≡ tables_under (get_member key.now (table_view tree.now)) }
{
    match tree.get(key) {
        Some(value) => tables_in(value),
        None => Some(&[]),
    }
}

// Whether the table has the key.
fn has(value: &Value, key: &str) -> bool
    ensures value { result ≡ is_some (get key.now (view value.now)) }
{
    match value.get(key) {
        Some(_) => true,
        None => false,
    }
}

// Whether the principal has its keys, and no other.
#[tactic(auto, unfolding(crate::specs::Tables::Tree::is_principal, crate::specs::Tables::Tree::principal_keys))]
pub(crate) fn is_principal(value: &Value) -> bool
    ensures value { result ≡ is_principal (view value.now) }
{
    has_only(&PRINCIPAL_KEYS, value) && has(value, "id") && has(value, "token")
}

// Whether the row has its keys, and no other.
#[tactic(auto, unfolding(crate::specs::Tables::Tree::is_row, crate::specs::Tables::Tree::row_keys))]
pub(crate) fn is_row(value: &Value) -> bool
    ensures value { result ≡ is_row (view value.now) }
{
    has_only(&ROW_KEYS, value) && has(value, "verdict") && has(value, "from") == has(value, "to")
}
