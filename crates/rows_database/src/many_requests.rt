//! Lines that make many requests: blocks that are written or offered one after the other, windows that are hardened,
//! statuses, and the lines of an audit.

use crate::database::{Asked, Database};
use pl_core::Reply;
use pl_table::Head;
use transcripts::answer::push_numbers;
use transcripts::asking::head_of;
use transcripts::block_text::number_words;
use transcripts::transcript::Stop;

impl Database {
    // Writes to the copy, or offers, the block of the LSN, whose byte is its number.
    fn put(
        &mut self,
        head: [&str; 4],
        lsn: u64,
        copy: &str,
        refused: &mut bool,
    ) -> Result<Reply, Stop> {
        let [principal, token, role, epoch] = head;
        let (_, block) = number_words(self.alloc, lsn, refused)?;
        let block = block.as_str();
        if copy.is_empty() {
            let offer = [principal, token, role, epoch, "offer", block];
            self.ask(Asked::Words(&offer), refused)
        } else {
            let write = [principal, token, role, epoch, "write", block, copy];
            self.ask(Asked::Words(&write), refused)
        }
    }

    // Puts each block from the first to the last, up to one that is not done.
    fn put_each(
        &mut self,
        head: [&str; 4],
        lsns: (u64, u64),
        copy: &str,
        refused: &mut bool,
    ) -> Result<Reply, Stop> {
        let (first, last) = lsns;
        for lsn in first..=last {
            let reply = self.put(head, lsn, copy, refused)?;
            if !matches!(reply, Reply::Done) {
                return Ok(reply);
            }
        }
        Ok(Reply::Done)
    }

    // The reply to the last of this many writes or offers.
    pub(crate) fn fill(
        &mut self,
        head: [&str; 4],
        words: [&str; 3],
        refused: &mut bool,
    ) -> Result<Reply, Stop> {
        let [first, last, copy] = words;
        self.put_each(head, (first.parse()?, last.parse()?), copy, refused)
    }

    // Writes the blocks of 64 numbers to two copies, and reports the last of them.
    fn harden_window(
        &mut self,
        head: [&str; 4],
        lsns: (u64, u64),
        refused: &mut bool,
    ) -> Result<Reply, Stop> {
        for copy in ["0", "1"] {
            let reply = self.put_each(head, lsns, copy, refused)?;
            if !matches!(reply, Reply::Done) {
                return Ok(reply);
            }
        }
        let [principal, token, role, epoch] = head;
        let (_, last) = lsns;
        let (last, _) = number_words(self.alloc, last, refused)?;
        let report = [principal, token, role, epoch, "report", last.as_str()];
        self.ask(Asked::Words(&report), refused)
    }

    // The reply to the last request that hardens this many times 64 blocks, from block 1 on, or to the first
    // that is not done.
    pub(crate) fn harden(
        &mut self,
        head: [&str; 4],
        count: u64,
        refused: &mut bool,
    ) -> Result<Reply, Stop> {
        for window in 0..count {
            let before = window.saturating_mul(64);
            let lsns = (before.saturating_add(1), before.saturating_add(64));
            let reply = self.harden_window(head, lsns, refused)?;
            if !matches!(reply, Reply::Done) {
                return Ok(reply);
            }
        }
        Ok(Reply::Done)
    }

    // Pushes how many lines an audit serves.
    pub(crate) fn push_served(
        &mut self,
        head: [&str; 4],
        words: [&str; 2],
        out: &mut String,
        refused: &mut bool,
    ) -> Result<(), Stop> {
        let [principal, token, role, epoch] = head;
        let [first, max] = words;
        let audit = [principal, token, role, epoch, "audit", first, max];
        let reply = self.ask(Asked::Words(&audit), refused)?;
        push_numbers(out, &[lines_in(&reply)?])
    }

    // Pushes how many of the statuses are answered.
    pub(crate) fn push_statuses(
        &mut self,
        head: [&str; 4],
        count: &str,
        out: &mut String,
        refused: &mut bool,
    ) -> Result<(), Stop> {
        let head = head_of(0, head)?;
        push_numbers(out, &[self.statuses(head, count.parse()?, refused)?])
    }

    // How many of the statuses are answered, up to one that is not.
    fn statuses(&mut self, head: Head, count: u64, refused: &mut bool) -> Result<u64, Stop> {
        for answered in 0..count {
            let reply = self.ask(Asked::Status(head), refused)?;
            if !matches!(reply, Reply::Status { .. }) {
                return Ok(answered);
            }
        }
        Ok(count)
    }
}

// How many lines the reply serves.
fn lines_in(reply: &Reply) -> Result<u64, Stop> {
    match reply {
        Reply::Entries { lines } => Ok(lines.as_slice().len() as u64),
        _ => Err(Stop::Unread),
    }
}
