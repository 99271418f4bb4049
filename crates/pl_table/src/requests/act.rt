//! What is asked for: an operation with its arguments.

ghost use Rattle.std.specs.Prelude.{◌≡◌};
ghost use Rattle.pl_table.specs.Requests.Request.{is_in_range, op_of};
ghost use Rattle.pl_table.specs.Requests.Acts.{number_of, partitions_of};
ghost use Rattle.pl_table.specs.Requests.Asking.{named_by};

use crate::requests::op::Op;
use crate::requests::partitions::Partitions;
use crate::tables::TableText;
use pl_block::{Block, LAST_LSN, PAGES_PER_PARTITION};

/// The most blocks that one pull asks for.
pub const MOST_PULLED: u16 = 16;

/// The most blocks that one advance goes on by.
pub const MOST_STEPS: u16 = 1_024;

/// The most entries of the audit list that one audit asks for.
pub const MOST_LISTED: u16 = 1_024;

/// The most bytes of a table's text.
pub const LONGEST_TEXT: usize = 65_506;

/// An operation with its arguments. It has no debug text, since a text of a table has tokens.
#[derive(Drop)]
pub enum Act {
    /// Write the block to the copy. A landing zone has the copies 0 to 2, or 0 to 5, as the table says.
    Write {
        copy: u8,
        block: Block,
    },
    /// Put the block into the pending area.
    Offer {
        block: Block,
    },
    /// Harden the log up to the LSN, 0 to 2^48.
    Report {
        lsn: u64,
    },
    /// Read the page as it is at an LSN: at `lsn`, 0 to 2^48, if `exact` holds; else at `lsn` or
    /// above it. At 0 every page is zeros.
    Get {
        page: u32,
        lsn: u64,
        exact: bool,
    },
    /// Read at most `max` hardened blocks, 1 to 16, that touch a partition from `lo` to `hi`. The
    /// first may have the LSN `lsn`, 1 to 2^48, and `lo` is at most `hi`.
    Pull {
        lo: u16,
        hi: u16,
        lsn: u64,
        max: u16,
    },
    /// Apply the log to the partition: at most `steps` blocks more, 1 to 1,024.
    Advance {
        partition: u16,
        steps: u16,
    },
    /// Report the epoch, the primary and how many blocks are hardened.
    Status,
    /// Begin the next epoch with this principal as its primary.
    Failover {
        primary: u32,
    },
    /// Put the table of the text in force. The text has at most 65,506 bytes.
    SetTable {
        text: TableText,
    },
    /// Read at most `max` entries of the audit list, 1 to 1,024, from the one with the number `first`,
    /// at least 1.
    Audit {
        first: u64,
        max: u16,
    },
    /// Move all but the 64 newest blocks of the broker to the segments of bytes, in memory.
    Tidy,
}

impl Act {
    /// The operation that is asked for.
    pub fn op(&self) -> Op
        // The operation of the act (`op_of`).
        ensures value { result ≡ op_of self.now }
    {
        match self {
            Act::Write { .. } => Op::Write,
            Act::Offer { .. } => Op::Offer,
            Act::Report { .. } => Op::Report,
            Act::Get { .. } => Op::Get,
            Act::Pull { .. } => Op::Pull,
            Act::Advance { .. } => Op::Advance,
            Act::Status => Op::Status,
            Act::Failover { .. } => Op::Failover,
            Act::SetTable { .. } => Op::SetTable,
            Act::Audit { .. } => Op::Audit,
            Act::Tidy => Op::Tidy,
        }
    }

    /// The LSN that the act names: that of its block, the one hardened up to, the one read at, or the first
    /// one pulled. `None` if it names none.
    pub fn lsn(&self) -> Option<u64>
        // The LSN that the act names, if any (`number_of`).
        ensures value { result ≡ number_of self.now }
    {
        match self {
            Act::Write { block, .. } | Act::Offer { block } => Some(block.lsn()),
            Act::Report { lsn } | Act::Get { lsn, .. } | Act::Pull { lsn, .. } => Some(*lsn),
            Act::Advance { .. }
            | Act::Status
            | Act::Failover { .. }
            | Act::SetTable { .. }
            | Act::Audit { .. }
            | Act::Tidy => None,
        }
    }

    // The partitions that the act names: those that its block touches, that of its page, all from lo to hi,
    // or the one that advances.
    #[inline]
    pub(crate) fn partitions(&self) -> Partitions<'_>
        ensures value { named_by result ≡ partitions_of self.now }
    {
        match self {
            Act::Write { block, .. } | Act::Offer { block } => Partitions::Listed(
                block.partitions(),
            ),
            Act::Get { page, .. } => Partitions::One((*page / PAGES_PER_PARTITION) as u16),
            Act::Pull { lo, hi, .. } => Partitions::Between(*lo, *hi),
            Act::Advance { partition, .. } => Partitions::One(*partition),
            Act::Report { .. }
            | Act::Status
            | Act::Failover { .. }
            | Act::SetTable { .. }
            | Act::Audit { .. }
            | Act::Tidy => Partitions::Nowhere,
        }
    }

    /// Whether the numbers of the act are in their ranges, and the length of its text: the LSN of a
    /// report and that of a get are at most 2^48; a pull names a partition, an LSN from 1 to 2^48 and
    /// 1 to 16 blocks; an advance has 1 to 1,024 steps; a text has at most 65,506 bytes; an audit is
    /// of 1 to 1,024 entries from 1 on. The other acts have no range but that of their fields.
    pub fn is_in_range(&self) -> bool
        // Whether the act is in its ranges (`is_in_range`).
        ensures value { result ≡ is_in_range self.now }
    {
        match self {
            Act::Write { .. } | Act::Offer { .. } => true,
            Act::Report { lsn } | Act::Get { lsn, .. } => *lsn <= LAST_LSN,
            Act::Pull { lo, hi, lsn, max } => {
                lo <= hi && 1 <= *lsn && *lsn <= LAST_LSN && 1 <= *max && *max <= MOST_PULLED
            }
            Act::Advance { steps, .. } => 1 <= *steps && *steps <= MOST_STEPS,
            Act::Status | Act::Failover { .. } | Act::Tidy => true,
            Act::SetTable { text } => text.text().len() <= LONGEST_TEXT,
            Act::Audit { first, max } => 1 <= *first && 1 <= *max && *max <= MOST_LISTED,
        }
    }
}
