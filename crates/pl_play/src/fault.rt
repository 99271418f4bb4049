//! Why `play` stops.

ghost use Rattle.std.specs.Prelude.{◌≡◌, Some};
ghost use Rattle.pl_play.specs.FaultText.{fault_text};

use std::alloc::AllocError;
use std::fmt;
use thiserror::Error;

/// Why `play` stopped before the end of its input. Lines are numbered from 1.
#[derive(Clone, Copy, Debug, PartialEq, Eq, Error)]
pub enum PlayFault {
    /// A read failed, or the input goes on past 4,294,967,296 lines.
    Read,
    /// A write failed, whatever the cause, or took no byte.
    Write,
    /// An allocation failed, but not in a step of the database: that is a reply.
    NoMemory,
    /// The line of this number has an odd number of digits, or a byte that is not a digit.
    Text(u64),
    /// The line of this number has more than 131,072 bytes before its line feed or the end.
    Long(u64),
}

impl fmt::Display for PlayFault {
    ghost output = { λ fault. Some (fault_text fault) };

    fn fmt<W: fmt::Write>(&self, f: &mut fmt::Formatter<W>) -> fmt::Result {
        match self {
            PlayFault::Read => write!(f, "read"),
            PlayFault::Write => write!(f, "write"),
            PlayFault::NoMemory => write!(f, "no memory"),
            PlayFault::Text(line) => write!(f, "line {line} is no hexadecimal text"),
            PlayFault::Long(line) => write!(f, "line {line} is too long"),
        }
    }
}

impl From<AllocError> for PlayFault {
    ghost use Rattle.pl_play.specs.declared.fault.PlayFault.TheVariants.{NoMemory};

    ghost from_gives = { λ _ e. e ≡ NoMemory };

    fn from(_refused: AllocError) -> PlayFault {
        PlayFault::NoMemory
    }
}
