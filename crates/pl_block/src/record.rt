//! One change to one page.

ghost use Rattle.std.specs.Prelude.{◌≡◌, IfOk, map};
ghost use Rattle.std.specs.Cmp.Lexicographic.{pointwise};
ghost use Rattle.pl_block.specs.Block.{changed_page, partition_of, same_record, touched};

use crate::same_bytes::same_bytes;
use bytes::Bytes;
use std::alloc::{AllocError, Global};

/// The pages of a partition, which follow one another.
pub const PAGES_PER_PARTITION: u32 = 65_536;

/// The number of a Put among the kinds of record.
pub(crate) const PUT: u8 = 1;

/// The number of a Zero among them.
pub(crate) const ZERO: u8 = 2;

/// A change to one page.
#[derive(Debug, Drop)]
pub enum Record {
    /// Replaces the bytes of the page from `offset` on by `bytes`. In a block they are 1 to 8,192
    /// bytes, and end within the page.
    Put {
        page: u32,
        offset: u16,
        bytes: Bytes,
    },
    /// Makes each byte of the page 0.
    Zero {
        page: u32,
    },
}

impl Record {
    /// The page that the record changes.
    pub fn page(&self) -> u32
        // The page that the record changes.
        ensures value { result ≡ changed_page self.now }
    {
        match self {
            Record::Put { page, .. } | Record::Zero { page } => *page,
        }
    }

    /// The partition of the page that the record changes.
    pub fn partition(&self) -> u16
        // The partition of the page that the record changes.
        ensures value { result ≡ partition_of self.now }
    {
        (self.page() / PAGES_PER_PARTITION) as u16
    }
}

// Whether two records are the same.
fn is_same(one: &Record, other: &Record) -> bool
    ensures value { result ≡ same_record one.now other.now }
{
    match (one, other) {
        (
            Record::Put {
                page,
                offset,
                bytes,
            },
            Record::Put {
                page: other_page,
                offset: other_offset,
                bytes: other_bytes,
            },
        ) => {
            page == other_page
                && offset == other_offset
                && same_bytes(bytes.as_slice(), other_bytes.as_slice())
        }
        (Record::Zero { page }, Record::Zero { page: other_page }) => page == other_page,
        _ => false,
    }
}

/// Whether the records are the same, in the same order.
pub(crate) fn are_same(one: &[Record], other: &[Record]) -> bool
    ensures value { result ≡ pointwise same_record one.now other.now }
{
    if one.len() != other.len() {
        return false;
    }
    for (entry, beside) in one.iter().zip(other) {
        if !is_same(entry, beside) {
            return false;
        }
    }
    true
}

// The partition of each record, in the order of the records.
fn record_partitions(alloc: Global, records: &[Record]) -> Result<Vec<u16>, AllocError>
    ensures ok { IfOk result (λ ps. ps.items ≡ map partition_of records.now) }
{
    records.iter().map(|entry| entry.partition()).collect(alloc)
}

/// The partitions that the records touch, rising, each once, in n log n steps for n records.
pub(crate) fn touched_partitions(alloc: Global, records: &[Record]) -> Result<Vec<u16>, AllocError>
    ensures ok { IfOk result (λ ps. ps.items ≡ touched records.now) }
{
    let mut partitions = record_partitions(alloc, records)?;
    partitions.sort_unstable();
    partitions.dedup();
    Ok(partitions)
}
