//! What the steps of two logs are drawn from: numbers of a seed, zones and pulls.

ghost use Rattle.std.specs.Prelude.{◌<◌, ◌≤◌};

use crate::plain::Zone;
use crate::stores::Size;
use rand_core::utils::NextWord;
use rand_pcg::Pcg32;

/// The zone of the first epoch.
pub(crate) const FIRST_ZONE: Zone = Zone {
    copies: 3,
    quorum: 2,
};

/// The zones that failovers make.
const ZONES: [Zone; 4] = [
    FIRST_ZONE,
    Zone {
        copies: 6,
        quorum: 4,
    },
    Zone {
        copies: 5,
        quorum: 3,
    },
    Zone {
        copies: 1,
        quorum: 1,
    },
];

/// The numbers that steps are drawn from.
#[derive(Drop)]
pub(crate) struct Draws {
    words: Pcg32,
}

impl Draws {
    pub(crate) fn new(seed: u64) -> Draws {
        Draws {
            words: Pcg32::new(seed, 1),
        }
    }

    // A number from 0 on, below this one.
    pub(crate) fn below(&mut self, bound: u16) -> u16
        ensures below { 1 ≤ bound → result < bound }
    {
        (self.words.next_word() % u32::from(bound.max(1))) as u16
    }

    // An LSN of the window above these hardened ones, or close to it.
    pub(crate) fn lsn_near(&mut self, hard: u64) -> u64 {
        let first = hard.saturating_sub(1).max(1);
        first.saturating_add(u64::from(self.below(70)))
    }

    pub(crate) fn zone(&mut self) -> Zone {
        ZONES[usize::from(self.below(4))]
    }

    // A hardened LSN, or the next one.
    pub(crate) fn lsn_to(&mut self, hard: u64) -> u64 {
        let bound = u16::try_from(hard).unwrap_or(u16::MAX);
        u64::from(self.below(bound)).saturating_add(1)
    }

    // One block in eight is long, and so not the same as a short one.
    pub(crate) fn size(&mut self) -> Size {
        if self.below(8) == 0 {
            Size::Long
        } else {
            Size::Short
        }
    }
}

/// What is asked of a pull.
#[derive(Clone, Copy)]
pub(crate) struct Asked {
    pub(crate) lo: u16,
    pub(crate) hi: u16,
    pub(crate) from: u64,
    pub(crate) max: u16,
    pub(crate) reach: u64,
}

impl Asked {
    // The blocks touch the partitions 0 to 6 and 100 to 102.
    pub(crate) fn drawn(draws: &mut Draws, hard: u64) -> Asked {
        let lo = if draws.below(2) == 0 { 0 } else { 97 };
        let lo = draws.below(9).saturating_add(lo);
        let reach = draws.lsn_to(hard);
        Asked {
            lo,
            hi: lo.saturating_add(draws.below(4)),
            from: reach.saturating_sub(u64::from(draws.below(40))),
            max: draws.below(20).saturating_add(1),
            reach,
        }
    }
}
