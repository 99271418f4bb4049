//! Why `serve` or `ask` ends before all is done.

ghost use Rattle.std.specs.Prelude.{◌≡◌, Some};
ghost use Rattle.pl_program.specs.Endings.{run_fault_text};

use pl_play::AdminFault;
use pl_wire::{BodyFault, FrameFault, ReplyFault, WriteFault};
use std::alloc::AllocError;
use std::fmt;
use thiserror::Error;

/// Why `serve` or `ask` ended before all was done.
#[derive(Clone, Copy, Debug, PartialEq, Eq, Error)]
pub enum RunFault {
    /// The token is not 32 hexadecimal digits, or the words ask for no request of an operator.
    Words,
    /// It is not an address, it could not be listened at, or nobody answers there.
    Address,
    /// A read failed, whatever the cause, or a connection could not be accepted.
    Read,
    /// A write failed, whatever the cause.
    Write,
    /// What came back is not a reply.
    Reply,
    /// A thread could not be started.
    Threads,
    /// An allocation failed.
    NoMemory,
}

impl fmt::Display for RunFault {
    ghost output = { λ fault. Some (run_fault_text fault) };

    fn fmt<W: fmt::Write>(&self, f: &mut fmt::Formatter<W>) -> fmt::Result {
        match self {
            RunFault::Words => write!(f, "words"),
            RunFault::Address => write!(f, "address"),
            RunFault::Read => write!(f, "read"),
            RunFault::Write => write!(f, "write"),
            RunFault::Reply => write!(f, "reply"),
            RunFault::Threads => write!(f, "threads"),
            RunFault::NoMemory => write!(f, "no memory"),
        }
    }
}

impl From<AllocError> for RunFault {
    ghost use Rattle.pl_program.specs.declared.run_fault.RunFault.TheVariants.{NoMemory};

    ghost from_gives = { λ _ e. e ≡ NoMemory };

    fn from(_refused: AllocError) -> RunFault {
        RunFault::NoMemory
    }
}

impl From<AdminFault> for RunFault {
    ghost use Rattle.pl_program.specs.Operator.{fault_of_words};

    ghost from_gives = { λ fault e. e ≡ fault_of_words fault };

    fn from(fault: AdminFault) -> RunFault {
        match fault {
            AdminFault::Words => RunFault::Words,
            AdminFault::NoMemory => RunFault::NoMemory,
        }
    }
}

impl From<WriteFault> for RunFault {
    ghost use Rattle.pl_program.specs.Operator.{fault_of_write};

    ghost from_gives = { λ fault e. e ≡ fault_of_write fault };

    fn from(fault: WriteFault) -> RunFault {
        match fault {
            WriteFault::Io => RunFault::Write,
            WriteFault::NoMemory => RunFault::NoMemory,
        }
    }
}

impl From<ReplyFault> for RunFault {
    ghost use Rattle.pl_program.specs.Operator.{fault_of_reply};

    ghost from_gives = { λ fault e. e ≡ fault_of_reply fault };

    fn from(fault: ReplyFault) -> RunFault {
        match fault {
            ReplyFault::Ended => RunFault::Reply,
            ReplyFault::Frame(FrameFault::Short | FrameFault::TooLong) => RunFault::Reply,
            ReplyFault::Frame(FrameFault::Io) => RunFault::Read,
            ReplyFault::Frame(FrameFault::NoMemory) => RunFault::NoMemory,
            ReplyFault::Body(BodyFault::Malformed(_)) => RunFault::Reply,
            ReplyFault::Body(BodyFault::NoMemory) => RunFault::NoMemory,
        }
    }
}
