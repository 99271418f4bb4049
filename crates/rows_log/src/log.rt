//! A log on its own, asked line by line.

ghost use Rattle.std.specs.Prelude.{◌≤◌, IfOk, IsTrue};
ghost use Rattle.pl_log.specs.Change.{ArePast};
ghost use Rattle.pl_log.specs.Window.{in_window, window_open_to};

use crate::plain::Zone;
use pl_block::Block;
use pl_log::DbLog;
use pl_log::laws::failovers_harden_the_longest_run;
use std::alloc::Global;
use transcripts::answer::{push_numbers, push_truth, push_word};
use transcripts::block_text::{block_of, number_words, push_block, push_blocks};
use transcripts::transcript::{Stop, Subject};

/// A log in an epoch, as whoever drives one keeps it.
#[derive(Drop)]
struct Driven {
    epoch: u32,
    /// Of this epoch.
    zone: Zone,
    log: DbLog,
    ghost past: { ArePast epoch log.annulled },
}

/// The log of a transcript.
#[derive(Drop)]
pub(crate) struct Log {
    alloc: Global,
    driven: Option<Driven>,
}

fn zone(copies: &str, quorum: &str) -> Result<Zone, Stop> {
    Ok(Zone {
        copies: copies.parse()?,
        quorum: quorum.parse()?,
    })
}

fn open(alloc: Global, zone: Zone) -> Result<Driven, Stop> {
    let Zone { copies, quorum } = zone;
    if quorum < 1 || copies < quorum || 6 < copies {
        return Err(Stop::Unread);
    }
    Ok(Driven {
        epoch: 1,
        zone,
        log: DbLog::new(alloc, copies, quorum)?,
    })
}

impl Driven {
    // All that is read of the log in short.
    fn short(&self) -> (u64, u8, (u64, u64)) {
        (self.log.hard(), self.log.copies(), self.log.counts())
    }

    fn write(&mut self, alloc: Global, word: &str, copy: u8) -> Result<(), Stop> {
        let block = block_of(alloc, word)?;
        let may = self.log.in_window(block.lsn()) && self.log.agrees(&block);
        if !may || self.log.copies() <= copy {
            return Err(Stop::Unread);
        }
        self.log.write(copy, block);
        Ok(())
    }

    // The block of the word, if it may be offered.
    fn offered(&self, alloc: Global, word: &str) -> Result<Block, Stop>
        ensures window { IfOk result (λ block. IsTrue (in_window self.now.log block.lsn)) }
        ensures agrees { IfOk result (λ block. IsTrue (window_open_to self.now.log block)) }
    {
        let block = block_of(alloc, word)?;
        if !self.log.in_window(block.lsn()) || !self.log.agrees(&block) {
            return Err(Stop::Unread);
        }
        Ok(block)
    }

    fn offer(&mut self, alloc: Global, word: &str, refused: &mut bool) -> Result<(), Stop> {
        let block = self.offered(alloc, word)?;
        let before = self.short();
        if self.log.offer(block).is_ok() {
            return Ok(());
        }
        meets_refusal(refused, self.short() == before)?;
        let block = self.offered(alloc, word)?;
        Ok(self.log.offer(block)?)
    }

    fn report(&mut self, lsn: u64, refused: &mut bool) -> Result<(), Stop> {
        if !self.log.can_harden(lsn) {
            return Err(Stop::Unread);
        }
        let before = self.short();
        if self.log.report(lsn).is_ok() {
            return Ok(());
        }
        meets_refusal(refused, self.short() == before)?;
        if !self.log.can_harden(lsn) {
            return Err(Stop::Unread);
        }
        Ok(self.log.report(lsn)?)
    }

    // Writes the block of the word to a copy, and once more if memory is refused.
    fn write_on(
        &mut self,
        alloc: Global,
        word: &str,
        copy: u8,
        refused: &mut bool,
    ) -> Result<(), Stop> {
        let end = self.write(alloc, word, copy);
        if *refused || !matches!(end, Err(Stop::NoMemory)) {
            return end;
        }
        *refused = true;
        self.write(alloc, word, copy)
    }

    // Writes a block, whose byte is its number, to a copy.
    fn land(&mut self, alloc: Global, lsn: u64, copy: u8, refused: &mut bool) -> Result<(), Stop> {
        let (_, word) = number_words(alloc, lsn, refused)?;
        self.write_on(alloc, word.as_str(), copy, refused)
    }

    fn land_each(
        &mut self,
        alloc: Global,
        first: u64,
        last: u64,
        copy: u8,
        refused: &mut bool,
    ) -> Result<(), Stop> {
        for lsn in first..=last {
            self.land(alloc, lsn, copy, refused)?;
        }
        Ok(())
    }

    // Writes a block, whose byte is its number, to two copies, and reports it.
    fn harden(&mut self, alloc: Global, lsn: u64, refused: &mut bool) -> Result<(), Stop> {
        self.land(alloc, lsn, 0, refused)?;
        self.land(alloc, lsn, 1, refused)?;
        self.report(lsn, refused)
    }

    fn harden_each(
        &mut self,
        alloc: Global,
        first: u64,
        last: u64,
        refused: &mut bool,
    ) -> Result<(), Stop> {
        for lsn in first..=last {
            self.harden(alloc, lsn, refused)?;
        }
        Ok(())
    }

    // Leaves the newest blocks in the broker.
    fn tidy(&mut self, refused: &mut bool) -> Result<(), Stop> {
        let before = self.short();
        if self.log.tidy().is_ok() {
            return Ok(());
        }
        meets_refusal(refused, self.short() == before)?;
        Ok(self.log.tidy()?)
    }

    // Ends the epoch, begins the next with the zone, and returns how many numbers were hardened.
    fn recover(&mut self, zone: Zone, refused: &mut bool) -> Result<u64, Stop> {
        failovers_harden_the_longest_run();
        let Zone { copies, quorum } = zone;
        if 1_000 <= self.epoch || quorum < 1 || copies < quorum || 6 < copies {
            return Err(Stop::Unread);
        }
        let before = self.short();
        let count = match self.log.recover(self.epoch, copies, quorum) {
            Ok(count) => count,
            Err(_) => {
                meets_refusal(refused, self.short() == before)?;
                self.log.recover(self.epoch, copies, quorum)?
            }
        };
        self.zone = zone;
        self.epoch += 1;
        Ok(count)
    }

    fn read(&mut self, out: &mut String, lsn: u64) -> Result<(), Stop> {
        if lsn < 1 || self.log.hard() < lsn {
            return Err(Stop::Unread);
        }
        let block = self.log.read(lsn)?;
        push_block(out, &block)
    }

    fn pull(&mut self, out: &mut String, asked: &[&str]) -> Result<(), Stop> {
        let [lo, hi, from, max, reach] = asked else {
            return Err(Stop::Unread);
        };
        let (max, reach) = (max.parse()?, reach.parse()?);
        if max < 1 || self.log.hard() < reach {
            return Err(Stop::Unread);
        }
        let (next, blocks) = self
            .log
            .pull(lo.parse()?, hi.parse()?, from.parse()?, max, reach)?;
        push_numbers(out, &[next])?;
        push_blocks(out, &blocks)
    }

    fn annulled(&self, out: &mut String, epoch: &str, lsn: &str) -> Result<(), Stop> {
        match self.log.annulled(epoch.parse()?, lsn.parse()?) {
            Some(block) => push_block(out, block),
            None => push_word(out, "none"),
        }
    }
}

// A test meets one refusal, which has changed nothing.
fn meets_refusal(refused: &mut bool, same: bool) -> Result<(), Stop> {
    if !same {
        return Err(Stop::Changed);
    }
    if *refused {
        return Err(Stop::NoMemory);
    }
    *refused = true;
    Ok(())
}

impl Driven {
    // Makes the change of the words.
    fn change(&mut self, alloc: Global, words: &[&str], refused: &mut bool) -> Result<(), Stop> {
        match words {
            ["write", block, copy] => self.write(alloc, block, copy.parse()?),
            ["offer", block] => self.offer(alloc, block, refused),
            ["report", lsn] => self.report(lsn.parse()?, refused),
            ["harden", first, last] => {
                self.harden_each(alloc, first.parse()?, last.parse()?, refused)
            }
            ["land", first, last, copy] => {
                self.land_each(alloc, first.parse()?, last.parse()?, copy.parse()?, refused)
            }
            ["tidy"] => self.tidy(refused),
            _ => Err(Stop::Unread),
        }
    }

    // Pushes what is taken out of the log, or made of it.
    fn push_read(
        &mut self,
        words: &[&str],
        out: &mut String,
        refused: &mut bool,
    ) -> Result<(), Stop> {
        match words {
            ["recover"] => push_numbers(out, &[self.recover(self.zone, refused)?]),
            ["recover", copies, quorum] => {
                push_numbers(out, &[self.recover(zone(copies, quorum)?, refused)?])
            }
            ["read", lsn] => self.read(out, lsn.parse()?),
            ["pull", asked @ ..] => self.pull(out, asked),
            _ => Err(Stop::Unread),
        }
    }

    fn push_state(&self, alloc: Global, words: &[&str], out: &mut String) -> Result<(), Stop> {
        match words {
            ["hard"] => push_numbers(out, &[self.log.hard()]),
            ["copies"] => push_numbers(out, &[u64::from(self.log.copies())]),
            ["counts"] => push_counts(out, self.log.counts()),
            ["in_broker"] => push_numbers(out, &[self.log.in_broker() as u64]),
            ["annulled", epoch, lsn] => self.annulled(out, epoch, lsn),
            _ => push_truth(out, self.holds(alloc, words)?),
        }
    }

    fn holds(&self, alloc: Global, words: &[&str]) -> Result<bool, Stop> {
        match words {
            ["in_window", lsn] => Ok(self.log.in_window(lsn.parse()?)),
            ["can_harden", lsn] => Ok(self.log.can_harden(lsn.parse()?)),
            ["agrees", block] => Ok(self.log.agrees(&block_of(alloc, block)?)),
            _ => Err(Stop::Unread),
        }
    }
}

fn push_counts(out: &mut String, counts: (u64, u64)) -> Result<(), Stop> {
    let (pending, landing) = counts;
    push_numbers(out, &[pending, landing])
}

// The first words of what is taken out of the log or made of it, and of its changes.
const READS: &[&str] = &["recover", "read", "pull"];

const CHANGES: &[&str] = &["write", "offer", "report", "harden", "land", "tidy"];

impl Log {
    fn open(&mut self, copies: &str, quorum: &str) -> Result<(), Stop> {
        self.driven = Some(open(self.alloc, zone(copies, quorum)?)?);
        Ok(())
    }

    // Pushes the answer of the log that is open.
    fn ask(&mut self, words: &[&str], out: &mut String, refused: &mut bool) -> Result<(), Stop> {
        let alloc = self.alloc;
        let driven = self.driven.as_mut().ok_or(Stop::Unread)?;
        let first = words.first().ok_or(Stop::Unread)?;
        if READS.contains(first) {
            driven.push_read(words, out, refused)
        } else if CHANGES.contains(first) {
            driven.change(alloc, words, refused)?;
            push_word(out, "Ok")
        } else {
            driven.push_state(alloc, words, out)
        }
    }
}

impl Subject for Log {
    fn new(alloc: Global) -> Log {
        Log {
            alloc,
            driven: None,
        }
    }

    fn answer(&mut self, words: &[&str], out: &mut String, refused: &mut bool) -> Result<(), Stop> {
        let ["log", copies, quorum] = words else {
            return self.ask(words, out, refused);
        };
        self.open(copies, quorum)?;
        push_word(out, "Ok")
    }
}
