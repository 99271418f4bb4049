//! The key of a cached verdict.

ghost use Rattle.std.specs.Prelude.{◌≡◌, IfSome};
ghost use Rattle.pl_table.specs.Requests.Asking.{asked_by};
ghost use Rattle.pl_decide.specs.Keys.{asked_with, IsKeyOf};

use pl_table::{Asking, Op, Partitions, Role};

/// What the rows of a table look at in a request that names one partition or none, but for its LSN. The
/// same rows are about requests with one key.
#[derive(Clone, Copy, Debug, PartialEq, Eq, Hash)]
pub struct VerdictKey {
    /// The id of the principal.
    pub principal: u32,
    /// The role in which it asks.
    pub role: Role,
    /// The operation that it asks for.
    pub op: Op,
    /// The only partition that the request names, if it names one.
    pub partition: Option<u16>,
}

impl VerdictKey {
    // The key of what is asked, or `None` if it may name more than one partition.
    pub(crate) fn of(asking: &Asking<'_>) -> Option<VerdictKey>
        ensures some { IfSome result (λ key. IsKeyOf key (asked_by asking.now)) }
    {
        let partition = asking.partitions.at_most_one()?;
        Some(VerdictKey {
            principal: asking.principal,
            role: asking.role,
            op: asking.op,
            partition,
        })
    }

    // What is asked with the key, at this LSN or without one.
    pub(crate) fn asking(&self, lsn: Option<u64>) -> Asking<'static>
        ensures value { asked_by result ≡ asked_with self.now lsn }
    {
        Asking {
            principal: self.principal,
            role: self.role,
            op: self.op,
            partitions: match self.partition {
                Some(partition) => Partitions::One(partition),
                None => Partitions::Nowhere,
            },
            lsn,
        }
    }
}
