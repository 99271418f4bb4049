//! The members of a principal and of a row, and the two numbers of a table.

ghost use Rattle.std.specs.Prelude.{◌≡◌, ◌≤◌, ◌==◌, ◌&&◌, ◌-◌, ◌^◌, nat_le, codes, length, IfSome, is_some, map, filter_map, option_map, IfOk};
ghost use Rattle.std.specs.List.{list_any, list_all};
ghost use Rattle.toml.specs.Data.{get_member};
ghost use Rattle.toml.specs.View.{view, table_view};
ghost use Rattle.pl_block.specs.Bounds.{last_lsn};
ghost use Rattle.pl_table.specs.Tables.Part.{number_up_to, token_in, verdict_in, role_in, op_in, ops_in, id_under, token_under, principal_of, verdict_under, role_under, ops_under, listed_in, who_under, range_between, range_from, range_under, through_under, has_words, has_numbers, row_of, zone_of_numbers, zone_read};
ghost use Rattle.pl_table.specs.Requests.Ops.{role_of_name, op_of_name};

use crate::requests::{Op, Role};
use crate::tables::range::PartitionRange;
use crate::tables::row::{Ops, Row};
use crate::tables::table::Principal;
use crate::tables::zone::Zone;
use hex::FromHex;
use pl_block::LAST_LSN;
use std::alloc::{AllocError, Global};
use toml::{Table as Tree, Value};

// The integer, if it is one from 0 to the most.
#[tactic(auto, unfolding(crate::specs::Tables::Part::number_up_to))]
fn number_up_to(most: u64, value: &Value) -> Option<u64>
    requires { most ≤ last_lsn }
    ensures value { result ≡ number_up_to most (view value.now) }
    ensures fits { IfSome result (λ n. n ≤ most) }
{
    match value {
        Value::Integer(number) if 0 <= *number && *number <= most as i64 => Some(*number as u64),
        _ => None,
    }
}

// The id that the value is.
fn id_in(value: &Value) -> Option<u32>
    ensures value { result ≡ number_up_to (2 ^ 32 - 1) (view value.now) }
{
    Some(number_up_to(u64::from(u32::MAX), value)? as u32)
}

#[tactic(auto, unfolding(crate::specs::Tables::Part::token_in))]
fn token_in(value: &Value) -> Option<[u8; 16]>
    ensures value { result ≡ token_in (view value.now) }
{
    match value {
        Value::String(digits) => <[u8; 16]>::from_hex(digits.as_str()).ok(),
        _ => None,
    }
}

#[tactic(auto, unfolding(crate::specs::Tables::Part::verdict_in))]
fn verdict_in(value: &Value) -> Option<bool>
    ensures value { result ≡ verdict_in (view value.now) }
{
    match value {
        Value::String(word) if word.as_str() == "allow" => Some(true),
        Value::String(word) if word.as_str() == "deny" => Some(false),
        _ => None,
    }
}

#[tactic(auto, unfolding(crate::specs::Tables::Part::role_in))]
fn role_in(value: &Value) -> Option<Role>
    ensures value { result ≡ role_in (view value.now) }
{
    match value {
        Value::String(word) => Role::of_name(word.as_str()),
        _ => None,
    }
}

#[tactic(auto, unfolding(crate::specs::Tables::Part::op_in))]
fn op_in(value: &Value) -> Option<Op>
    ensures value { result ≡ op_in (view value.now) }
{
    match value {
        Value::String(word) => Op::of_name(word.as_str()),
        _ => None,
    }
}

#[tactic(auto, unfolding(crate::specs::Tables::Part::id_under))]
pub(crate) fn id_under(principal: &Value) -> Option<u32>
    ensures value { result ≡ id_under (view principal.now) }
{
    match principal.get("id") {
        Some(value) => id_in(value),
        None => None,
    }
}

#[tactic(auto, unfolding(crate::specs::Tables::Part::token_under))]
pub(crate) fn token_under(principal: &Value) -> Option<[u8; 16]>
    ensures value { result ≡ token_under (view principal.now) }
{
    match principal.get("token") {
        Some(value) => token_in(value),
        None => None,
    }
}

#[tactic(auto, unfolding(crate::specs::Tables::Part::principal_of))]
pub(crate) fn principal_of(principal: &Value) -> Option<Principal>
    ensures value { result ≡ principal_of (view principal.now) }
{
    let id = id_under(principal)?;
    let token = token_under(principal)?;
    Some(Principal { id, token })
}

#[tactic(auto, unfolding(crate::specs::Tables::Part::verdict_under))]
pub(crate) fn verdict_under(row: &Value) -> Option<bool>
    ensures value { result ≡ verdict_under (view row.now) }
{
    match row.get("verdict") {
        Some(value) => verdict_in(value),
        None => None,
    }
}

// The role of the row, which may be absent. `None` if it is there and is not a role.
#[tactic(auto, unfolding(crate::specs::Tables::Part::role_under, crate::specs::Tables::Part::if_there))]
pub(crate) fn role_under(row: &Value) -> Option<Option<Role>>
    ensures value { result ≡ role_under (view row.now) }
{
    match row.get("role") {
        Some(value) => role_in(value).map(Some),
        None => Some(None),
    }
}

fn are_ops(values: &[Value]) -> bool
    ensures value { result ≡ list_all (λ v. is_some (op_in (view v))) values.now }
{
    values.iter().all(|value| op_in(value).is_some())
}

// Whether there are values, each an operation.
fn are_some_ops(values: &[Value]) -> bool
    ensures value { result
        ≡ (nat_le 1 (length values.now)
        && list_all (λ v. is_some (op_in (view v))) values.now) }
{
    1 <= values.len() && are_ops(values)
}

fn ops_from(alloc: Global, values: &[Value]) -> Result<Vec<Op>, AllocError>
    ensures ok { IfOk result (λ ops. ops.items ≡ filter_map (λ v. op_in (view v)) values.now) }
{
    values.iter().filter_map(op_in).collect(alloc)
}

// Whether the value lists operations.
#[tactic(auto, unfolding(crate::specs::Tables::Part::ops_in))]
fn lists_ops(value: &Value) -> bool
    ensures value { result ≡ is_some (ops_in (view value.now)) }
{
    match value {
        Value::Array(values) => are_some_ops(values),
        _ => false,
    }
}

// The operations that the value lists, if it lists some.
#[tactic(auto, unfolding(crate::specs::Tables::Part::ops_in))]
fn ops_in(alloc: Global, value: &Value) -> Result<Option<Ops>, AllocError>
    ensures ok { IfOk result (λ ops. ops ≡ ops_in (view value.now)) }
{
    match value {
        Value::Array(values) => {
            if are_some_ops(values) {
                Ok(Some(Ops::new(ops_from(alloc, values)?)))
            } else {
                Ok(None)
            }
        }
        _ => Ok(None),
    }
}

// Whether the operations of the row are absent, or are some.
#[tactic(auto, unfolding(crate::specs::Tables::Part::ops_under, crate::specs::Tables::Part::if_there))]
pub(crate) fn has_ops(row: &Value) -> bool
    ensures value { result ≡ is_some (ops_under (view row.now)) }
{
    match row.get("op") {
        Some(value) => lists_ops(value),
        None => true,
    }
}

// The operations of the row, which may be absent. `None` if they are there and are none.
#[tactic(auto, unfolding(crate::specs::Tables::Part::ops_under, crate::specs::Tables::Part::if_there))]
fn ops_under(alloc: Global, row: &Value) -> Result<Option<Option<Ops>>, AllocError>
    ensures ok { IfOk result (λ ops. ops ≡ ops_under (view row.now)) }
{
    match row.get("op") {
        Some(value) => Ok(ops_in(alloc, value)?.map(Some)),
        None => Ok(Some(None)),
    }
}

fn is_listed(principals: &[Principal], id: u32) -> bool
    ensures value { result ≡ list_any (λ p. p.id == id) principals.now }
{
    principals.iter().any(|principal| principal.id == id)
}

// The id that the value is, if a principal of that id is listed.
#[tactic(auto, unfolding(crate::specs::Tables::Part::listed_in))]
fn listed_in(principals: &[Principal], value: &Value) -> Option<u32>
    ensures value { result ≡ listed_in principals.now (view value.now) }
{
    let id = id_in(value)?;
    is_listed(principals, id).then_some(id)
}

// The principal of the row, which may be absent. `None` if it is there and is not listed.
#[tactic(auto, unfolding(crate::specs::Tables::Part::who_under, crate::specs::Tables::Part::if_there))]
pub(crate) fn who_under(principals: &[Principal], row: &Value) -> Option<Option<u32>>
    ensures value { result ≡ who_under principals.now (view row.now) }
{
    match row.get("who") {
        Some(value) => listed_in(principals, value).map(Some),
        None => Some(None),
    }
}

#[tactic(auto, unfolding(crate::specs::Tables::Part::range_between))]
fn range_between(from: &Value, to: &Value) -> Option<PartitionRange>
    ensures value { result ≡ range_between (number_up_to 65535 (view from.now))
        (number_up_to 65535 (view to.now)) }
{
    let from = number_up_to(65_535, from)?;
    let to = number_up_to(65_535, to)?;
    if from <= to {
        Some(PartitionRange {
            from: from as u16,
            to: to as u16,
        })
    } else {
        None
    }
}

// The range of the row, which may be absent. `None` if only one end is there, or an end is not a
// partition, or the first is above the last.
#[tactic(auto, unfolding(crate::specs::Tables::Part::range_under, crate::specs::Tables::Part::range_from))]
pub(crate) fn range_under(row: &Value) -> Option<Option<PartitionRange>>
    ensures value { result ≡ range_under (view row.now) }
{
    match (row.get("from"), row.get("to")) {
        (Some(from), Some(to)) => range_between(from, to).map(Some),
        (None, None) => Some(None),
        _ => None,
    }
}

// The LSN that the row ends at, which may be absent. `None` if it is there and is not an LSN.
#[tactic(auto, unfolding(crate::specs::Tables::Part::through_under, crate::specs::Tables::Part::if_there))]
pub(crate) fn through_under(row: &Value) -> Option<Option<u64>>
    ensures value { result ≡ through_under (view row.now) }
{
    match row.get("through") {
        Some(value) => number_up_to(LAST_LSN, value).map(Some),
        None => Some(None),
    }
}

// Whether the verdict, the role and the operations of the row are written in their words.
#[tactic(auto, unfolding(crate::specs::Tables::Part::has_words))]
pub(crate) fn has_words(row: &Value) -> bool
    ensures value { result ≡ has_words (view row.now) }
{
    verdict_under(row).is_some() && role_under(row).is_some() && has_ops(row)
}

// Whether the principal, the range and the end of the row are written in their numbers.
#[tactic(auto, unfolding(crate::specs::Tables::Part::has_numbers))]
pub(crate) fn has_numbers(principals: &[Principal], row: &Value) -> bool
    ensures value { result ≡ has_numbers principals.now (view row.now) }
{
    who_under(principals, row).is_some()
        && range_under(row).is_some()
        && through_under(row).is_some()
}

// The row, if each of its parts reads.
#[tactic(auto, unfolding(crate::specs::Tables::Part::row_of))]
pub(crate) fn row_of(
    alloc: Global,
    principals: &[Principal],
    row: &Value,
) -> Result<Option<Row>, AllocError>
    ensures ok { IfOk result (λ read. read ≡ row_of principals.now (view row.now)) }
{
    let Some(allows) = verdict_under(row) else {
        return Ok(None);
    };
    let Some(who) = who_under(principals, row) else {
        return Ok(None);
    };
    let Some(role) = role_under(row) else {
        return Ok(None);
    };
    let Some(range) = range_under(row) else {
        return Ok(None);
    };
    let Some(through) = through_under(row) else {
        return Ok(None);
    };
    let Some(op) = ops_under(alloc, row)? else {
        return Ok(None);
    };
    Ok(Some(Row {
        allows,
        who,
        role,
        op,
        range,
        through,
    }))
}

// The zone with this number of copies and this quorum.
fn zone_of_numbers(copies: u64, quorum: u64) -> Option<Zone>
    ensures value { result ≡ zone_of_numbers copies quorum }
{
    match (copies, quorum) {
        (3, 2) => Some(Zone::Three),
        (6, 4) => Some(Zone::Six),
        _ => None,
    }
}

// The zone of two numbers that are there.
#[tactic(auto, unfolding(crate::specs::Tables::Part::zone_read))]
fn zone_between(copies: &Value, quorum: &Value) -> Option<Zone>
    ensures value { result ≡ zone_read (Some (view copies.now)) (Some (view quorum.now)) }
{
    zone_of_numbers(number_up_to(6, copies)?, number_up_to(4, quorum)?)
}

// The zone of two numbers, either of which may be absent.
#[tactic(auto, unfolding(crate::specs::Tables::Part::zone_read))]
fn zone_in(copies: Option<&Value>, quorum: Option<&Value>) -> Option<Zone>
    ensures value { result ≡ zone_read (option_map (λ v. view v.now) copies.entry)
        (option_map (λ v. view v.now) quorum.entry) }
{
    match (copies, quorum) {
        (Some(copies), Some(quorum)) => zone_between(copies, quorum),
        (None, None) => Some(Zone::Three),
        _ => None,
    }
}

// The zone of a table: three copies if neither number is there. `None` if one of them is missing, or
// no zone has these numbers.
pub(crate) fn zone_under(tree: &Tree) -> Option<Zone>
    ensures value { result ≡ zone_read (get_member (codes "copies") (table_view tree.now))
        (get_member (codes "quorum") (table_view tree.now)) }
{
    zone_in(tree.get("copies"), tree.get("quorum"))
}
