//! The pages of a log, asked line by line, and their rows.

ghost use Rattle.pl_pages.specs.State.{FitsLog};
ghost use Rattle.rows_log.specs.Fits.{is_record-prop};
ghost use Rattle.std.proofs.Props.{props};
ghost use Rattle.std.specs.List.{AllByRecursion-prop};

use pl_log::DbLog;
use pl_log::laws::reports_harden_contents;
use pl_pages::Pages;
use pl_pages::laws::pages_fit_longer_logs;
use std::alloc::Global;
use transcripts::answer::{push_numbers, push_word};
use transcripts::block_text::block_of;
use transcripts::transcript::{Stop, Subject, plays};

/// A log with its pages, as whoever serves pages keeps them.
#[derive(Drop)]
pub(crate) struct Served {
    log: DbLog,
    pages: Pages,
    ghost fits: { FitsLog pages log.hardened } by { Prim.hlevel (props, AllByRecursion-prop, is_record-prop) },
}

/// The pages of a transcript.
#[derive(Drop)]
struct Replayed {
    alloc: Global,
    served: Option<Served>,
}

/// An empty log with its pages, which have this many chunks of versions, or one.
pub(crate) fn open(alloc: Global, chunks: u8) -> Result<Served, Stop> {
    Ok(Served {
        log: DbLog::new(alloc, 3, 2)?,
        pages: Pages::new(alloc, usize::from(chunks).max(1)),
    })
}

impl Served {
    // Writes the block to a copy.
    fn write(&mut self, alloc: Global, word: &str, copy: u8) -> Result<(), Stop> {
        let block = block_of(alloc, word)?;
        let may = self.log.in_window(block.lsn()) && self.log.agrees(&block);
        if !may || self.log.copies() <= copy {
            return Err(Stop::Unread);
        }
        self.log.write(copy, block);
        Ok(())
    }

    fn report(&mut self, lsn: u64) -> Result<(), Stop> {
        reports_harden_contents();
        pages_fit_longer_logs();
        if !self.log.can_harden(lsn) {
            return Err(Stop::Unread);
        }
        Ok(self.log.report(lsn)?)
    }

    fn advance(&mut self, partition: u16, steps: u64) -> Result<(), Stop> {
        Ok(self.pages.advance(&mut self.log, partition, steps)?)
    }

    // Hardens the block, which is written to two copies.
    fn harden(&mut self, alloc: Global, block: &str, lsn: u64) -> Result<(), Stop> {
        self.write(alloc, block, 0)?;
        self.write(alloc, block, 1)?;
        self.report(lsn)
    }

    // Makes the change of the words.
    fn change(&mut self, alloc: Global, words: &[&str]) -> Result<(), Stop> {
        match words {
            ["harden", lsn, block] => self.harden(alloc, block, lsn.parse()?),
            ["advance", partition, steps] => self.advance(partition.parse()?, steps.parse()?),
            _ => Err(Stop::Unread),
        }
    }

    /// The LSN that is answered, and the first and the last byte of the page.
    pub(crate) fn get(&mut self, page: u32, lsn: u64, exact: bool) -> Result<[u64; 3], Stop> {
        if self.log.hard() < lsn {
            return Err(Stop::Unread);
        }
        let (at, bytes) = self.pages.get(&mut self.log, page, lsn, exact)?;
        Ok([at, u64::from(bytes[0]), u64::from(bytes[8_191])])
    }

    // Pushes what is read of the pages.
    fn push_state(&mut self, words: &[&str], out: &mut String) -> Result<(), Stop> {
        match words {
            ["applied", partition] => {
                push_numbers(out, &[self.pages.applied(partition.parse()?)])
            }
            ["get", page, lsn] => {
                push_numbers(out, &self.get(page.parse()?, lsn.parse()?, false)?)
            }
            ["get", page, lsn, "exact"] => {
                push_numbers(out, &self.get(page.parse()?, lsn.parse()?, true)?)
            }
            _ => Err(Stop::Unread),
        }
    }
}

// The first words of changes.
const CHANGES: &[&str] = &["harden", "advance"];

impl Replayed {
    // Pushes the answer of the pages that are open.
    fn ask(&mut self, words: &[&str], out: &mut String) -> Result<(), Stop> {
        let alloc = self.alloc;
        let served = self.served.as_mut().ok_or(Stop::Unread)?;
        let first = words.first().ok_or(Stop::Unread)?;
        if !CHANGES.contains(first) {
            return served.push_state(words, out);
        }
        served.change(alloc, words)?;
        push_word(out, "Ok")
    }
}

impl Subject for Replayed {
    fn new(alloc: Global) -> Replayed {
        Replayed {
            alloc,
            served: None,
        }
    }

    fn answer(
        &mut self,
        words: &[&str],
        out: &mut String,
        _refused: &mut bool,
    ) -> Result<(), Stop> {
        let ["pages"] = words else {
            return self.ask(words, out);
        };
        self.served = Some(open(self.alloc, 16)?);
        push_word(out, "Ok")
    }
}

const PAGES_AT_EACH_LSN: &str = "\
pages                         = Ok
# A page that nothing changed.
get 9 0                       = 0 0 0
get 9 0 exact                 = 0 0 0
harden 1 1:01                 = Ok
harden 2 2:02,ee@65536+8191   = Ok
harden 3 3:03                 = Ok
get 0 1                       = 1 1 0
get 0 2                       = 2 2 0
get 0 3                       = 3 3 0
get 0 0                       = 0 0 0
get 65536 1                   = 1 0 0
get 65536 2                   = 2 0 238
# What is applied is answered, where it is far enough.
advance 0 2                   = Ok
applied 0                     = 2
applied 1                     = 0
get 0 1                       = 2 2 0
get 0 1 exact                 = 1 1 0
get 0 3                       = 3 3 0
get 65536 1                   = 1 0 0
# Not past the hardened end.
advance 0 16                  = Ok
applied 0                     = 3
advance 65535 1               = Ok
applied 65535                 = 1
harden 4 4:04                 = Ok
applied 0                     = 3
get 0 1                       = 3 3 0
get 0 4                       = 4 4 0
";

#[test]
fn pages_at_each_lsn(rt: HostRuntime) {
    assert!(rt; plays::<Replayed>(&rt, PAGES_AT_EACH_LSN));
}

// A block that makes the whole page is where a replay may begin: bytes from before it are gone, also
// if a version from before it is kept, and records before it in its own block do not count.
const REPLAYS_BEGIN_AT_IMAGES: &str = "\
pages                                 = Ok
harden 1 1:01                         = Ok
harden 2 2:ee@0+8191                  = Ok
harden 3 3:aa@0+8191,8192*07,08@0+1   = Ok
harden 4 4:04                         = Ok
harden 5 5:zero                       = Ok
harden 6 6:06@0+8191                  = Ok
harden 7 7:8192*05@1,8191*09          = Ok
get 0 2 exact                         = 2 1 238
get 0 3 exact                         = 3 7 7
get 0 4 exact                         = 4 4 7
get 0 5 exact                         = 5 0 0
get 0 6 exact                         = 6 0 6
get 0 7 exact                         = 7 9 6
get 1 6 exact                         = 6 0 0
get 1 7 exact                         = 7 5 5
get 0 1 exact                         = 1 1 0
# Newest first, so that no version is kept below.
pages                                 = Ok
harden 1 1:11,22@0+8191               = Ok
harden 2 2:8192*33                    = Ok
harden 3 3:44                         = Ok
get 0 3 exact                         = 3 68 51
get 0 2 exact                         = 2 51 51
get 0 1 exact                         = 1 17 34
";

#[test]
fn replays_begin_at_images(rt: HostRuntime) {
    assert!(rt; plays::<Replayed>(&rt, REPLAYS_BEGIN_AT_IMAGES));
}
