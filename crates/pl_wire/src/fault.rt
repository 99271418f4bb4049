//! Why a body is not a request, or not a reply.

ghost use Rattle.std.specs.Prelude.{◌≡◌, ◌≤◌};
ghost use Rattle.pl_block.specs.declared.fault.Failed.TheVariants.{Malformed};
ghost use Rattle.pl_wire.specs.declared.fault.WireFault.TheVariants.{EndsInField};
ghost use Rattle.pl_wire.specs.Codes.{body_fault_code, of_block};

use bytes::TryGetError;
use pl_block::{BlockFault, Failed, Fault};

/// What is wrong with a body.
///
/// Each fault has a code. Of the faults that a request has, the one of the least code is reported:
/// each is asked of the whole body, and presupposes that it has none of those before. Of those that a
/// reply has, the one that is met first is, from left to right.
#[derive(Clone, Copy, Debug, PartialEq, Eq)]
pub enum WireFault {
    /// The body of a request has fewer than 30 bytes, the least that one has; that of a reply has
    /// none: code 1.
    TooShort,
    /// The number of a role is not 1 to 4: code 2.
    UnknownRole,
    /// No operation has this number, or the kind of a reply is above 10: code 3.
    UnknownKind,
    /// The body ends inside a field: code 4. If the block of a request is cut, the fault is the
    /// block's.
    EndsInField,
    /// Bytes follow the last field: code 5.
    BytesAfterEnd,
    /// A number, a flag, or the length of a table's text is out of its range: code 6. In a reply it is
    /// a count, a section or a code; or a line of an allowed request has a row or a value.
    OutOfRange,
    /// The block is malformed: the code of the block's fault, and 6 more, so 7 to 15.
    Block(Fault),
}

impl WireFault {
    /// The fault's code in the format of bodies, 1 to 15.
    pub fn code(self) -> u8
        // The code of the fault (`body_fault_code`).
        ensures value { result ≡ body_fault_code self }
        // It is 1 to 15.
        ensures fits { (1 ≤ result) × (result ≤ 15) }
    {
        match self {
            WireFault::TooShort => 1,
            WireFault::UnknownRole => 2,
            WireFault::UnknownKind => 3,
            WireFault::EndsInField => 4,
            WireFault::BytesAfterEnd => 5,
            WireFault::OutOfRange => 6,
            WireFault::Block(fault) => fault.code() + 6,
        }
    }
}

/// Why a call gave no request or no reply: the fault of the body, or out of memory.
pub type BodyFault = Failed<WireFault>;

impl From<TryGetError> for WireFault {
    ghost from_gives = { λ _ e. e ≡ EndsInField };

    fn from(_missing: TryGetError) -> WireFault {
        WireFault::EndsInField
    }
}

impl From<WireFault> for BodyFault {
    ghost from_gives = { λ fault e. e ≡ Malformed fault };

    fn from(fault: WireFault) -> BodyFault {
        BodyFault::Malformed(fault)
    }
}

// Why there is no body if there is no block.
pub(crate) fn of_block(fault: BlockFault) -> BodyFault
    ensures value { result ≡ of_block fault }
{
    match fault {
        BlockFault::Malformed(fault) => BodyFault::Malformed(WireFault::Block(fault)),
        BlockFault::NoMemory => BodyFault::NoMemory,
    }
}
