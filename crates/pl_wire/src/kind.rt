//! What a reply is, as its first byte says.

ghost use Rattle.std.specs.Prelude.{◌≡◌};
ghost use Rattle.pl_wire.specs.Replies.{kind_number, kind_of, kind_of_number};

use pl_core::Reply;

/// What a reply is. The discriminant is the first byte of its spelling.
#[derive(Clone, Copy)]
pub enum ReplyKind {
    Done = 0,
    Blocks = 1,
    Page = 2,
    Entries = 3,
    Status = 4,
    Denied = 5,
    NoMemory = 6,
    AuditFull = 7,
    Spent = 8,
    NoDatabase = 9,
    Malformed = 10,
}

// The case with this number, of those that have one, or `None` if none has it.
macro_rules! numbered {
    ($number:expr; $($case:path),*) => {
        match $number {
            $(number if number == $case as u8 => Some($case),)*
            _ => None,
        }
    };
}

impl ReplyKind {
    /// What the reply is.
    pub(crate) fn of(reply: &Reply) -> ReplyKind
        ensures value { result ≡ kind_of reply.now }
    {
        match reply {
            Reply::Done => ReplyKind::Done,
            Reply::Blocks { .. } => ReplyKind::Blocks,
            Reply::Page { .. } => ReplyKind::Page,
            Reply::Entries { .. } => ReplyKind::Entries,
            Reply::Status { .. } => ReplyKind::Status,
            Reply::Denied { .. } => ReplyKind::Denied,
            Reply::NoMemory => ReplyKind::NoMemory,
            Reply::AuditFull => ReplyKind::AuditFull,
            Reply::Spent => ReplyKind::Spent,
            Reply::NoDatabase => ReplyKind::NoDatabase,
            Reply::Malformed { .. } => ReplyKind::Malformed,
        }
    }

    /// The first byte of each reply of this kind. The replies `NoMemory`, `AuditFull`, `Spent`,
    /// `NoDatabase` and `Done` have no other.
    pub fn number(self) -> u8
        // The first byte of a reply of this kind.
        ensures value { result ≡ kind_number self }
    {
        self as u8
    }

    /// The kind of the replies with this first byte, or `None` if there is none.
    pub(crate) fn of_number(number: u8) -> Option<ReplyKind>
        ensures value { result ≡ kind_of_number number }
    {
        numbered!(
            number;
            ReplyKind::Done,
            ReplyKind::Blocks,
            ReplyKind::Page,
            ReplyKind::Entries,
            ReplyKind::Status,
            ReplyKind::Denied,
            ReplyKind::NoMemory,
            ReplyKind::AuditFull,
            ReplyKind::Spent,
            ReplyKind::NoDatabase,
            ReplyKind::Malformed
        )
    }
}
