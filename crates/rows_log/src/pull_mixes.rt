//! Pulls of long logs whose blocks touch partitions in many mixes, beside those of plain lists.

use crate::both_logs::{Both, new_logs};
use crate::draws::{Asked, Draws};
use crate::plain::Zone;
use crate::stores::{Row, Stop, plays, wants};
use pl_block::{Block, Record};
use std::alloc::Global;

/// The zone of a log: one copy is enough.
const ONE_COPY: Zone = Zone {
    copies: 1,
    quorum: 1,
};

/// Which partitions the block of an LSN touches.
#[derive(Clone, Copy)]
enum Mix {
    /// One in 100 touches partition 1, each other one partition 0.
    Rare,
    /// Each touches another one.
    Each,
    /// Two far apart, so that no interval of partitions rules out what lies between.
    Apart,
    /// Some that have the same remainder by 512, in groups of 100 blocks.
    Alike,
    /// Every third touches none.
    Few,
}

/// A log of so many blocks of a mix, which is pulled from so often.
#[derive(Clone, Copy)]
struct Pulls {
    mix: Mix,
    blocks: u64,
    pulls: u16,
}

fn partitions(mix: Mix, lsn: u64) -> (Option<u16>, Option<u16>) {
    match mix {
        Mix::Rare => (Some(u16::from(lsn % 100 == 17)), None),
        Mix::Each => (Some((lsn.wrapping_mul(40_503) % 65_536) as u16), None),
        Mix::Apart => {
            let low = (lsn % 50) as u16;
            (Some(low), Some(65_535 - low))
        }
        Mix::Alike => (Some((lsn / 100 % 128 * 512) as u16), None),
        Mix::Few => {
            let some = if lsn % 3 == 0 {
                None
            } else {
                Some((lsn % 1_000) as u16)
            };
            (some, None)
        }
    }
}

// The block of the LSN, which touches the partitions.
fn block_of(alloc: Global, mix: Mix, lsn: u64) -> Result<Block, Stop> {
    let (first, second) = partitions(mix, lsn);
    let mut records = Vec::new(alloc);
    for partition in [first, second] {
        if let Some(partition) = partition {
            records.push(Record::Zero {
                page: u32::from(partition) * 65_536,
            })?;
        }
    }
    Ok(Block::new(alloc, lsn, records)?)
}

// Writes the next block to both, and hardens it.
fn harden(both: &mut Both, mix: Mix, refused: &mut bool) -> Result<(), Stop> {
    let lsn = both.hard().saturating_add(1);
    both.write(0, block_of(both.alloc(), mix, lsn)?)?;
    both.report(lsn, refused)?;
    wants(both.hard() == lsn, "the next block is hardened")
}

// Partitions of the mix, or near them, from an LSN that is drawn.
fn drawn(mix: Mix, draws: &mut Draws, hard: u64) -> Asked {
    let (first, second) = partitions(mix, draws.lsn_to(hard));
    let some = second.or(first).unwrap_or(7);
    let lo = some.saturating_sub(draws.below(3));
    let hi = match draws.below(4) {
        0 => lo.saturating_add(draws.below(u16::MAX)),
        1 => lo.saturating_add(draws.below(300)),
        _ => lo.saturating_add(draws.below(3)),
    };
    Asked {
        lo,
        hi,
        from: draws.lsn_to(hard),
        max: draws.below(20),
        reach: hard.saturating_sub(u64::from(draws.below(300))),
    }
}

impl Pulls {
    fn harden_all(self, both: &mut Both, refused: &mut bool) -> Result<(), Stop> {
        for _ in 0..self.blocks {
            harden(both, self.mix, refused)?;
        }
        Ok(())
    }

    fn pull_all(self, both: &mut Both, refused: &mut bool) -> Result<(), Stop> {
        let mut draws = Draws::new(self.blocks);
        for _ in 0..self.pulls {
            let asked = drawn(self.mix, &mut draws, both.hard());
            both.pull(asked, refused)?;
        }
        Ok(())
    }

    // Hardens and pulls in both logs.
    fn take(self, both: &mut Both, refused: &mut bool) -> Result<(), Stop> {
        both.recover(ONE_COPY, refused)?;
        self.harden_all(both, refused)?;
        self.pull_all(both, refused)
    }
}

impl Row for Pulls {
    fn play(self, alloc: Global, refused: &mut bool) -> Result<(), Stop> {
        let mut both = new_logs(alloc, refused)?;
        self.take(&mut both, refused)
    }
}

#[test]
fn pulls_answer_as_lists(rt: HostRuntime) {
    for mix in [Mix::Rare, Mix::Each, Mix::Apart, Mix::Alike, Mix::Few] {
        plays(
            &rt,
            rt.alloc(),
            Pulls {
                mix,
                blocks: 1_000,
                pulls: 300,
            },
        );
    }
}

#[test]
fn pulls_of_5000_blocks_answer_as_lists(rt: HostRuntime) {
    for mix in [Mix::Rare, Mix::Alike] {
        plays(
            &rt,
            rt.alloc(),
            Pulls {
                mix,
                blocks: 5_000,
                pulls: 200,
            },
        );
    }
}
