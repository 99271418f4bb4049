//! The log beside a plain one: steps that are drawn from a seed are taken in both, and each answer is
//! the same.

ghost use Rattle.std.specs.Prelude.{IfOk};
ghost use Rattle.pl_log.specs.Change.{ArePast};

use crate::draws::{Asked, Draws, FIRST_ZONE};
use crate::plain::{PlainLog, Zone};
use crate::stores::{Row, Size, Stop, block, meets_refusal, plays, wants};
use pl_block::Block;
use pl_log::DbLog;
use pl_log::laws::failovers_harden_the_longest_run;
use std::alloc::Global;

/// A log and a plain one, in the same epoch.
#[derive(Drop)]
pub(crate) struct Both {
    alloc: Global,
    epoch: u32,
    log: DbLog,
    plain: PlainLog,
    ghost past: { ArePast epoch log.annulled },
}

fn new_log(alloc: Global, refused: &mut bool) -> Result<DbLog, Stop>
    ensures past { IfOk result (λ log. ArePast 1 log.annulled) }
{
    if let Ok(log) = DbLog::new(alloc, 3, 2) {
        return Ok(log);
    }
    meets_refusal(refused)?;
    Ok(DbLog::new(alloc, 3, 2)?)
}

/// Two logs without blocks.
pub(crate) fn new_logs(alloc: Global, refused: &mut bool) -> Result<Both, Stop> {
    let log = new_log(alloc, refused)?;
    Ok(Both {
        alloc,
        epoch: 1,
        log,
        plain: PlainLog::new(alloc, FIRST_ZONE),
    })
}

fn same_blocks(some: &[Block], others: &[Block]) -> bool {
    some.len() == others.len()
        && some
            .iter()
            .zip(others.iter())
            .all(|(one, other)| one.same(other))
}

fn same_block(one: Option<&Block>, other: Option<&Block>) -> bool {
    match (one, other) {
        (Some(one), Some(other)) => one.same(other),
        (None, None) => true,
        _ => false,
    }
}

impl Both {
    pub(crate) fn alloc(&self) -> Global {
        self.alloc
    }

    pub(crate) fn hard(&self) -> u64 {
        self.log.hard()
    }

    // What is read of the logs in short is the same.
    fn compare(&self) -> Result<(), Stop> {
        wants(self.log.hard() == self.plain.hard(), "hard")?;
        let copies = self.log.copies() == self.plain.zone().copies;
        wants(copies, "copies")?;
        wants(self.log.counts() == self.plain.counts(), "counts")
    }

    // A refused allocation has changed nothing.
    fn meets_refusal(&self, refused: &mut bool) -> Result<(), Stop> {
        self.compare()?;
        meets_refusal(refused)
    }

    // Whether the block may be written and offered is the same.
    fn compare_openness(&self, block: &Block) -> Result<(), Stop> {
        let lsn = block.lsn();
        let windows = self.log.in_window(lsn) == self.plain.in_window(lsn);
        wants(windows, "in_window")?;
        wants(self.log.agrees(block) == self.plain.agrees(block), "agrees")
    }

    /// Writes the block, if it may be written.
    pub(crate) fn write(&mut self, copy: u8, block: Block) -> Result<(), Stop> {
        self.compare_openness(&block)?;
        let may = self.log.in_window(block.lsn()) && self.log.agrees(&block);
        if !may || self.log.copies() <= copy {
            return Ok(());
        }
        self.plain.write(copy, block.share()?)?;
        self.log.write(copy, block);
        Ok(())
    }

    // Offers the block, if it may be offered.
    fn offer(&mut self, block: Block, refused: &mut bool) -> Result<(), Stop> {
        self.compare_openness(&block)?;
        if !self.log.in_window(block.lsn()) || !self.log.agrees(&block) {
            return Ok(());
        }
        self.plain.offer(block.share()?)?;
        let again = block.share()?;
        if self.log.offer(block).is_ok() {
            return Ok(());
        }
        self.meets_refusal(refused)?;
        if !self.log.in_window(again.lsn()) || !self.log.agrees(&again) {
            return Err(Stop::Wrong("still open after a refusal"));
        }
        Ok(self.log.offer(again)?)
    }

    /// Hardens up to the LSN, if that may be hardened.
    pub(crate) fn report(&mut self, lsn: u64, refused: &mut bool) -> Result<(), Stop> {
        let can = self.log.can_harden(lsn) == self.plain.can_harden(lsn);
        wants(can, "can_harden")?;
        if !self.log.can_harden(lsn) {
            return Ok(());
        }
        if self.log.report(lsn).is_err() {
            self.meets_refusal(refused)?;
            if !self.log.can_harden(lsn) {
                return Err(Stop::Wrong("hardened after a refusal"));
            }
            self.log.report(lsn)?;
        }
        Ok(self.plain.report(lsn)?)
    }

    // Ends the epoch of the log.
    fn end_epoch(&mut self, zone: Zone) -> Result<u64, Stop> {
        failovers_harden_the_longest_run();
        let Zone { copies, quorum } = zone;
        if quorum < 1 || copies < quorum || 6 < copies {
            return Err(Stop::Wrong("no such zone"));
        }
        if 1_000 <= self.epoch {
            return Err(Stop::Wrong("too many epochs"));
        }
        let run = self.log.recover(self.epoch, copies, quorum)?;
        self.epoch += 1;
        Ok(run)
    }

    /// Ends the epoch of both, and begins the next with the zone.
    pub(crate) fn recover(&mut self, zone: Zone, refused: &mut bool) -> Result<(), Stop> {
        let epoch = self.epoch;
        let run = match self.end_epoch(zone) {
            Ok(run) => run,
            Err(Stop::NoMemory) => {
                self.meets_refusal(refused)?;
                self.end_epoch(zone)?
            }
            Err(stop) => return Err(stop),
        };
        let plain = self.plain.recover(epoch, zone)?;
        wants(run == plain, "the length of the run")
    }

    fn tidy(&mut self, refused: &mut bool) -> Result<(), Stop> {
        if self.log.tidy().is_err() {
            self.meets_refusal(refused)?;
            self.log.tidy()?;
        }
        Ok(())
    }

    fn read(&mut self, lsn: u64, refused: &mut bool) -> Result<(), Stop> {
        if lsn < 1 || self.log.hard() < lsn {
            return Ok(());
        }
        let block = match self.log.read(lsn) {
            Ok(block) => block,
            Err(_) => {
                self.meets_refusal(refused)?;
                self.log.read(lsn)?
            }
        };
        let same = same_block(Some(&block), self.plain.read(lsn));
        wants(same, "the block of an LSN")
    }

    /// Both pull the same blocks, and go on at the same LSN, but for a pull of none.
    pub(crate) fn pull(&mut self, asked: Asked, refused: &mut bool) -> Result<(), Stop> {
        let Asked {
            lo,
            hi,
            from,
            max,
            reach,
        } = asked;
        if self.log.hard() < reach {
            return Ok(());
        }
        let (next, blocks) = match self.log.pull(lo, hi, from, max, reach) {
            Ok(found) => found,
            Err(_) => {
                self.meets_refusal(refused)?;
                self.log.pull(lo, hi, from, max, reach)?
            }
        };
        let (plain_next, plain_blocks) = self.plain.pull(lo, hi, from, max, reach)?;
        let goes_on = max == 0 || next == plain_next;
        wants(goes_on, "where the next pull goes on")?;
        wants(same_blocks(&blocks, &plain_blocks), "the blocks of a pull")
    }

    fn annulled(&self, epoch: u32, lsn: u64) -> Result<(), Stop> {
        let (found, plain) = (
            self.log.annulled(epoch, lsn),
            self.plain.annulled(epoch, lsn),
        );
        wants(same_block(found, plain), "an annulled block")
    }

    // Writes the next LSN to the last copies that are a quorum, if that may be.
    fn land(&mut self, lsn: u64) -> Result<(), Stop> {
        let Zone { copies, quorum } = self.plain.zone();
        let next = block(self.alloc, lsn, Size::Short)?;
        for copy in copies.saturating_sub(quorum)..copies {
            self.write(copy, next.share()?)?;
        }
        Ok(())
    }

    // Writes the next LSNs to a quorum of copies, if that may be, and hardens them.
    fn harden(&mut self, count: u16, refused: &mut bool) -> Result<(), Stop> {
        let hard = self.log.hard();
        let last = hard.saturating_add(u64::from(count));
        for lsn in hard..last {
            self.land(lsn.saturating_add(1))?;
        }
        self.report(last, refused)
    }
}

impl Both {
    // Takes a step that is drawn.
    fn step(&mut self, draws: &mut Draws, refused: &mut bool) -> Result<(), Stop> {
        let hard = self.log.hard();
        match draws.below(20) {
            0..6 => self.write_drawn(draws),
            6..9 => self.offer_drawn(draws, refused),
            9..13 => self.harden(draws.below(20), refused),
            13 => self.report(draws.lsn_near(hard), refused),
            14 | 15 => self.pull(Asked::drawn(draws, hard), refused),
            16 | 17 => self.read(draws.lsn_to(hard), refused),
            18 => self.annulled(u32::from(draws.below(20)), draws.lsn_near(hard)),
            _ => self.end_or_tidy(draws, refused),
        }
    }

    fn write_drawn(&mut self, draws: &mut Draws) -> Result<(), Stop> {
        let lsn = draws.lsn_near(self.log.hard());
        let size = draws.size();
        let copy = draws.below(u16::from(self.log.copies())) as u8;
        self.write(copy, block(self.alloc, lsn, size)?)
    }

    fn offer_drawn(&mut self, draws: &mut Draws, refused: &mut bool) -> Result<(), Stop> {
        let lsn = draws.lsn_near(self.log.hard());
        let size = draws.size();
        self.offer(block(self.alloc, lsn, size)?, refused)
    }

    fn end_or_tidy(&mut self, draws: &mut Draws, refused: &mut bool) -> Result<(), Stop> {
        match draws.below(4) {
            0 => self.tidy(refused),
            _ => self.recover(draws.zone(), refused),
        }
    }

    // Each hardened and each annulled block is the same.
    fn compare_all(&mut self, refused: &mut bool) -> Result<(), Stop> {
        let last = self.log.hard().saturating_add(70);
        for lsn in 1..last {
            self.read(lsn, refused)?;
            for epoch in 0..self.epoch {
                self.annulled(epoch, lsn)?;
            }
        }
        Ok(())
    }
}

/// Steps of a seed, that end with more hardened blocks than a broker has.
#[derive(Clone, Copy)]
struct Steps {
    seed: u64,
    count: usize,
}

impl Steps {
    // Takes the steps in both logs.
    fn take(self, both: &mut Both, refused: &mut bool) -> Result<(), Stop> {
        let mut draws = Draws::new(self.seed);
        for _ in 0..self.count {
            both.step(&mut draws, refused)?;
            both.compare()?;
        }
        both.compare_all(refused)?;
        wants(300 < both.log.hard(), "more than 300 hardened blocks")?;
        wants(5 < both.epoch, "more than five epochs")
    }
}

impl Row for Steps {
    fn play(self, alloc: Global, refused: &mut bool) -> Result<(), Stop> {
        let mut both = new_logs(alloc, refused)?;
        self.take(&mut both, refused)
    }
}

#[test]
fn stores_answer_as_lists(rt: HostRuntime) {
    for seed in 0..4 {
        plays(&rt, rt.alloc(), Steps { seed, count: 1_000 });
    }
}
