//! Why bytes are not a block, and why an LSN and records do not make one.

ghost use Rattle.std.specs.Prelude.{◌≡◌, ◌≤◌};
ghost use Rattle.pl_block.specs.declared.fault.Fault.TheVariants.{EndsInField};
ghost use Rattle.pl_block.specs.declared.fault.Failed.TheVariants.{Malformed, NoMemory};
ghost use Rattle.pl_block.specs.Codes.{code_of};

use bytes::TryGetError;
use std::alloc::{AllocError, AllocFailed};

/// What is wrong with a block. The discriminant is the fault's code in the block format.
#[derive(Clone, Copy, Debug, PartialEq, Eq)]
pub enum Fault {
    /// The bytes end inside a field.
    EndsInField = 1,
    /// The block's LSN is 0 or above 2^48.
    NumberOutOfRange = 2,
    /// An annotated partition is not above the one before it.
    PartitionNotAbove = 3,
    /// A record's kind is not known.
    UnknownKind = 4,
    /// A Put has no bytes.
    EmptyPut = 5,
    /// A Put passes the end of its page.
    PutPastPage = 6,
    /// Bytes follow the last record.
    BytesAfterEnd = 7,
    /// The annotations are not the partitions that the records touch.
    WrongAnnotations = 8,
    /// The block has more than 32,768 bytes.
    TooLong = 9,
}

impl Fault {
    /// The fault's code in the block format, 1 to 9.
    pub fn code(self) -> u8
        // The code of the fault (`code_of`).
        ensures value { result ≡ code_of self }
        // It is 1 to 9.
        ensures fits { (1 ≤ result) × (result ≤ 9) }
    {
        self as u8
    }
}

/// Why a call gave no value: what it was given is malformed, or memory ran out.
#[derive(Debug, Drop)]
pub enum Failed<F> {
    /// What was given is malformed, by this fault. The call says which of several faults is reported.
    Malformed(F),
    /// An allocation failed.
    NoMemory,
}

/// Why a call gave no block.
pub type BlockFault = Failed<Fault>;

impl<F: Drop> From<AllocError> for Failed<F> {
    ghost from_gives = { λ _ e. e ≡ NoMemory };

    fn from(_failed: AllocError) -> Failed<F> {
        Failed::NoMemory
    }
}

impl<T: Drop, F: Drop> From<AllocFailed<T>> for Failed<F> {
    ghost from_gives = { λ _ e. e ≡ NoMemory };

    fn from(_failed: AllocFailed<T>) -> Failed<F> {
        Failed::NoMemory
    }
}

impl From<Fault> for BlockFault {
    ghost from_gives = { λ fault e. e ≡ Malformed fault };

    fn from(fault: Fault) -> BlockFault {
        BlockFault::Malformed(fault)
    }
}

impl From<TryGetError> for Fault {
    ghost from_gives = { λ _ e. e ≡ EndsInField };

    fn from(_missing: TryGetError) -> Fault {
        Fault::EndsInField
    }
}

impl From<TryGetError> for BlockFault {
    ghost from_gives = { λ _ e. e ≡ Malformed EndsInField };

    fn from(_missing: TryGetError) -> BlockFault {
        BlockFault::Malformed(Fault::EndsInField)
    }
}
