//! A range of partitions.

ghost use Rattle.std.specs.Prelude.{◌≡◌, ◌≤◌, ◌+◌, ◌-◌};
ghost use Rattle.std.specs.List.{list_all, list_any, range_with_len};
ghost use Rattle.pl_table.specs.Requests.Acts.{all_between};
ghost use Rattle.pl_table.specs.Requests.Asking.{named_by};

use crate::requests::Partitions;

/// The partitions from `from` to `to`, both included. The range is empty if `from` is above `to`.
#[derive(Clone, Copy, Debug, PartialEq, Eq)]
pub struct PartitionRange {
    /// The first partition.
    pub from: u16,
    /// The last partition.
    pub to: u16,
}

impl PartitionRange {
    ghost use Rattle.pl_table.specs.Tables.Row.{is_within, range_matches};

    /// Whether the partition is in the range.
    pub(crate) fn has(&self, partition: u16) -> bool
        ensures value { result ≡ is_within self.now partition }
    {
        self.from <= partition && partition <= self.to
    }

    /// Whether all these partitions are in the range.
    pub(crate) fn has_all(&self, partitions: &[u16]) -> bool
        ensures value { result ≡ list_all (is_within self.now) partitions.now }
    {
        partitions.iter().all(|partition| self.has(*partition))
    }

    /// Whether at least one of these partitions is in the range.
    pub(crate) fn has_any(&self, partitions: &[u16]) -> bool
        ensures value { result ≡ list_any (is_within self.now) partitions.now }
    {
        partitions.iter().any(|partition| self.has(*partition))
    }

    /// Whether all partitions from `lo` to `hi` are in the range.
    pub(crate) fn has_all_between(&self, lo: u16, hi: u16) -> bool
        requires { lo ≤ hi }
        ensures value { result ≡ list_all (is_within self.now) (range_with_len lo (hi + 1 - lo)) }
    {
        self.from <= lo && hi <= self.to
    }

    /// Whether at least one partition from `lo` to `hi` is in the range.
    pub(crate) fn has_any_between(&self, lo: u16, hi: u16) -> bool
        requires { lo ≤ hi }
        ensures value { result ≡ list_any (is_within self.now) (range_with_len lo (hi + 1 - lo)) }
    {
        self.from.max(lo) <= self.to.min(hi)
    }

    // Whether the range of a row that allows, or of one that denies, matches these partitions.
    pub(crate) fn matches(&self, partitions: &Partitions<'_>, allows: bool) -> bool
        ensures value { result ≡ range_matches allows (named_by partitions.now) self.now }
    {
        match partitions {
            Partitions::Nowhere => true,
            Partitions::One(partition) => self.has(*partition),
            Partitions::Between(lo, hi) => self.matches_between(*lo, *hi, allows),
            Partitions::Listed(partitions) => self.matches_these(partitions, allows),
        }
    }

    fn matches_between(&self, lo: u16, hi: u16, allows: bool) -> bool
        ensures value { result ≡ range_matches allows (all_between lo hi) self.now }
    {
        if hi < lo {
            return true;
        }
        if allows {
            self.has_all_between(lo, hi)
        } else {
            self.has_any_between(lo, hi)
        }
    }

    fn matches_these(&self, partitions: &[u16], allows: bool) -> bool
        ensures value { result ≡ range_matches allows partitions.now self.now }
    {
        if allows {
            self.has_all(partitions)
        } else {
            partitions.is_empty() || self.has_any(partitions)
        }
    }
}
