//! What a request is answered.

ghost use Rattle.std.specs.Prelude.{◌≡◌, ◌↔◌, [], IsTrue};
ghost use Rattle.pl_core.specs.Appending.{reply_in};
ghost use Rattle.pl_core.specs.Reply.{FitsReply};

use crate::items::Items;
use pl_audit::Line;
use pl_block::{Block, PAGE_SIZE};
use pl_table::Section;

/// The most blocks that one reply serves.
const MAX_SERVED: usize = 16;

/// The most lines of the audit list that one reply has.
const MAX_LINES: usize = 1_024;

/// The greatest code of a malformed body.
const MAX_CODE: u8 = 15;

/// Blocks in the order of their LSNs.
pub type Blocks = Items<Block>;

/// The bytes of a page.
pub type PageBytes = Items<u8>;

/// Lines of the audit list, the oldest first.
pub type Lines = Items<Line>;

/// What a request is answered.
#[derive(Debug, Drop)]
pub enum Reply {
    /// The request was carried out.
    Done,
    /// The blocks of a pull, at most 16, and the LSN from which to go on.
    Blocks {
        next: u64,
        blocks: Blocks,
    },
    /// The 8,192 bytes of a page, and the LSN that it is given at: the page has the changes of all
    /// hardened blocks up to it, and no later one.
    Page {
        at: u64,
        bytes: PageBytes,
    },
    /// The lines of an audit, at most 1,024. There may be none.
    Entries {
        lines: Lines,
    },
    /// The current epoch and its primary, the LSN of the last hardened block, 0 if there is
    /// none, and how many blocks were hardened from the pending area and from the landing zone.
    Status {
        epoch: u32,
        primary: u32,
        hard: u64,
        pending: u64,
        landing: u64,
    },
    /// The first row of the written order that denies the request, by section and number, and
    /// the value that it reports. But for the entry of the denial nothing has changed.
    Denied {
        section: Section,
        row: u16,
        value: u64,
    },
    /// An allocation failed. Nothing has changed.
    NoMemory,
    /// The audit list holds as many entries as it may. Nothing has changed.
    AuditFull,
    /// The desk has given all its turns. Never from a step of the database.
    Spent,
    /// There is no such database. Never from a step of the database.
    NoDatabase,
    /// The body is not a request, by this code, 1 to 15. Never from a step of the database.
    Malformed {
        code: u8,
    },
}

impl Reply {
    /// Whether counts, codes and the length of a page are in the ranges of the reply format, so
    /// that the reply can be written.
    pub fn fits(&self) -> bool
        // Whether the reply can be written (`FitsReply`).
        ensures exact { IsTrue result ↔ FitsReply self.now }
    {
        match self {
            Reply::Blocks { blocks, .. } => blocks.as_slice().len() <= MAX_SERVED,
            Reply::Page { bytes, .. } => bytes.as_slice().len() == PAGE_SIZE,
            Reply::Entries { lines } => lines.as_slice().len() <= MAX_LINES,
            Reply::Malformed { code } => 1 <= *code && *code <= MAX_CODE,
            _ => true,
        }
    }
}

/// A reply of which a page's bytes are not a part: they were appended to a buffer, so that they are copied once.
#[derive(Debug, Drop)]
pub enum Answer {
    /// The reply, which is no page. Nothing was appended.
    Whole(Reply),
    /// A page at this LSN. Its 8,192 bytes are the last of the buffer.
    Page { at: u64 },
}

impl Answer {
    /// The reply, if all that is in the buffer was appended by this answer. Nothing is copied.
    pub fn into_reply(self, appended: Vec<u8>) -> Reply
        // The reply that the answer is, if the buffer was empty (`reply_in`).
        ensures value { result ≡ reply_in self [] appended.items }
    {
        match self {
            Answer::Whole(reply) => reply,
            Answer::Page { at } => {
                let bytes = PageBytes::new(appended);
                Reply::Page { at, bytes }
            }
        }
    }
}
