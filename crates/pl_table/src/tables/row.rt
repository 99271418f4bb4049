//! A row of the table.

ghost use Rattle.std.specs.Prelude.{◌≡◌, ◌==◌, ◌&&◌, IfOk, IsTrue};
ghost use Rattle.pl_table.specs.Requests.Asking.{asked_by, named_by};
ghost use Rattle.pl_table.specs.Tables.Absent.{part_matches};
ghost use Rattle.pl_table.specs.Tables.Index.{is_asker, can_be, can_match};
ghost use Rattle.pl_table.specs.Tables.Row.{is_about, range_matches, row_matches, through_matches};
ghost use Rattle.pl_table.specs.Requests.Ops.{same_role, lists_op};

use crate::requests::{Asking, Op, Partitions, Role};
use crate::tables::range::PartitionRange;
use std::alloc::{AllocError, Global};
use std::marker::Model;

/// The operations that a row lists.
#[derive(Debug, Drop)]
pub struct Ops {
    items: Vec<Op>,
}

impl Model for Ops {
    ghost use Rattle.std.specs.Prelude.{List};
    ghost use Rattle.pl_table.specs.declared.requests.op.Op.{Op};

    ghost Value = { List Op };

    ghost view = { λ o. o.items.items };
}

impl Ops {
    /// The operations in this order.
    pub fn new(items: Vec<Op>) -> Ops
        // The operations, in their order.
        ensures value { result ≡ items.items }
    {
        Ops { items }
    }

    /// The operations in their order.
    pub fn as_slice(&self) -> &[Op]
        // The operations, in their order.
        ensures value { result.now ≡ self.now }
    {
        &self.items
    }

    // An equal list, in memory of its own.
    pub(crate) fn clone_ops(&self) -> Result<Ops, AllocError>
        ensures ok { IfOk result (λ ops. ops ≡ self.now) }
    {
        Ok(Ops {
            items: copy_of(*self.items.allocator(), &self.items)?,
        })
    }

    /// The operations in their order, in the memory that they were made with.
    pub fn into_vec(self) -> Vec<Op>
        // The operations, in their order.
        ensures value { result.items ≡ self }
    {
        self.items
    }
}

fn copy_of(alloc: Global, ops: &[Op]) -> Result<Vec<Op>, AllocError>
    ensures ok { IfOk result (λ copy. copy.items ≡ ops.now) }
{
    ops.iter().copied().collect(alloc)
}

/// A row: which requests it matches, and whether it allows them. A part that is `None` matches every
/// request.
#[derive(Debug, Drop)]
pub struct Row {
    /// Whether the row allows what it matches. A row that does not allow denies.
    pub allows: bool,
    /// The id of the only principal that it matches.
    pub who: Option<u32>,
    /// The only role that it matches.
    pub role: Option<Role>,
    /// The only operations that it matches.
    pub op: Option<Ops>,
    /// The range of partitions. A row that allows matches a request if the range has all partitions
    /// that the request names; a row that denies, if it has at least one of them. A request that
    /// names no partition is matched by every range.
    pub range: Option<PartitionRange>,
    /// The LSN that the row ends at, at most 2^48. A row that allows matches a request only if the
    /// request's LSN is at most this one; a row that denies, only if it is above. A request that names
    /// no LSN is not tested by it.
    pub through: Option<u64>,
}

impl Row {
    /// Whether the row matches what is asked. Nothing is allocated.
    pub fn matches(&self, asking: &Asking<'_>) -> bool
        // Whether the row matches what is asked (`row_matches`).
        ensures value { result ≡ row_matches self.now (asked_by asking.now) }
    {
        self.speaks_of(asking.principal, asking.role, asking.op)
            && matches_range(self.allows, self.range, &asking.partitions)
            && matches_through(self.allows, self.through, asking.lsn)
    }

    // An equal row, in memory of its own.
    pub(crate) fn clone_row(&self) -> Result<Row, AllocError>
        ensures ok { IfOk result (λ row. row ≡ self.now) }
    {
        let op = match &self.op {
            Some(ops) => Some(ops.clone_ops()?),
            None => None,
        };
        Ok(Row {
            allows: self.allows,
            who: self.who,
            role: self.role,
            op,
            range: self.range,
            through: self.through,
        })
    }

    // Whether the row matches what is asked, if it can match by its principal and its operations.
    pub(crate) fn matches_listed(&self, asking: &Asking<'_>) -> bool
        requires listed { IsTrue (can_match (asked_by asking.now) self.now) }
        ensures value { result ≡ row_matches self.now (asked_by asking.now) }
    {
        self.is_about(asking) && matches_through(self.allows, self.through, asking.lsn)
    }

    // Whether the row is about what is asked, whatever LSN that names, if it can match by its
    // principal and its operations.
    pub(crate) fn is_about(&self, asking: &Asking<'_>) -> bool
        requires listed { IsTrue (can_match (asked_by asking.now) self.now) }
        ensures value { result ≡ is_about self.now (asked_by asking.now) }
    {
        matches_role(self.role, asking.role)
            && matches_range(self.allows, self.range, &asking.partitions)
    }

    // Whether the row can match a request for the operation by this principal; by one that no row
    // names, for `None`.
    pub(crate) fn can_be(&self, asker: Option<u32>, op: Op) -> bool
        ensures value { result ≡ can_be asker op self.now }
    {
        matches_asker(self.who, asker) && matches_op(&self.op, op)
    }

    // Whether the row matches a request of the principal, in the role, for an operation that names no
    // partition. Every range matches such a request.
    pub(crate) fn speaks_of(&self, principal: u32, role: Role, op: Op) -> bool
        ensures value { result ≡ (part_matches (λ who. who == principal) self.now.who
            && (part_matches (same_role role) self.now.role
            && part_matches (lists_op op) self.now.op)) }
    {
        matches_who(self.who, principal)
            && matches_role(self.role, role)
            && matches_op(&self.op, op)
    }
}

fn matches_asker(who: Option<u32>, asker: Option<u32>) -> bool
    ensures value { result ≡ part_matches (is_asker asker) who }
{
    match who {
        Some(id) => asker == Some(id),
        None => true,
    }
}

fn matches_who(who: Option<u32>, principal: u32) -> bool
    ensures value { result ≡ part_matches (λ id. id == principal) who }
{
    match who {
        Some(id) => id == principal,
        None => true,
    }
}

fn matches_role(part: Option<Role>, role: Role) -> bool
    ensures value { result ≡ part_matches (same_role role) part }
{
    match part {
        Some(listed) => listed.number() == role.number(),
        None => true,
    }
}

fn matches_op(part: &Option<Ops>, op: Op) -> bool
    ensures value { result ≡ part_matches (lists_op op) part.now }
{
    match part {
        Some(ops) => has_op_of(ops.as_slice(), op),
        None => true,
    }
}

fn has_op_of(ops: &[Op], op: Op) -> bool
    ensures value { result ≡ lists_op op ops.now }
{
    ops.iter().any(|listed| listed.number() == op.number())
}

fn matches_through(allows: bool, part: Option<u64>, lsn: Option<u64>) -> bool
    ensures value { result ≡ part_matches (through_matches allows lsn) part }
{
    match (part, lsn) {
        (Some(through), Some(lsn)) => (lsn <= through) == allows,
        _ => true,
    }
}

fn matches_range(allows: bool, part: Option<PartitionRange>, partitions: &Partitions<'_>) -> bool
    ensures value { result ≡ part_matches (range_matches allows (named_by partitions.now)) part }
{
    match part {
        Some(range) => range.matches(partitions, allows),
        None => true,
    }
}
