//! Why a conversation ended before its input did.

ghost use Rattle.std.specs.Prelude.{◌≡◌};
ghost use Rattle.pl_conn.specs.Conversation.{cause_of};

use pl_wire::FrameFault;

/// Why a conversation ended before its input did.
#[derive(Clone, Copy, Debug, PartialEq, Eq)]
pub enum Cause {
    /// The input ends inside a frame.
    Short,
    /// The length of a frame is above 65,536.
    TooLong,
    /// A read failed, whatever made it fail: an interruption too.
    Read,
    /// A write failed, whatever made it fail, or took no byte. Some frames after the answered ones, at
    /// least one, were read, and their requests handed to the gate: those whose replies waited together,
    /// less than 256 KiB and one reply more. A beginning of the next reply may be written.
    Write,
    /// An allocation failed, before the first frame or for the body of the next one, which was not handed
    /// to the gate. No reply was given that is not written.
    NoMemory,
}

/// A conversation that ended before its input did.
#[derive(Clone, Copy, Debug, PartialEq, Eq)]
pub struct ConnFault {
    /// Why it ended.
    pub cause: Cause,
    /// How many frames were answered, which is the number of replies that are written whole.
    pub answered: u64,
}

// Why a conversation ends if a frame was not read.
pub(crate) fn cause_of(fault: FrameFault) -> Cause
    ensures value { result ≡ cause_of fault }
{
    match fault {
        FrameFault::Short => Cause::Short,
        FrameFault::TooLong => Cause::TooLong,
        FrameFault::Io => Cause::Read,
        FrameFault::NoMemory => Cause::NoMemory,
    }
}
