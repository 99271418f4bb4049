//! Positions, which go on for ever, and the LSNs of one generation.

ghost use Rattle.std.specs.Prelude.{◌≡◌, ◌≤◌, if◌then◌else◌, IfSome, nat_le, option_map, Some, None};
ghost use Rattle.pl_block.specs.Bounds.{last_lsn};
ghost use Rattle.pl_images.specs.Position.{lsn_at, moved, position_at};

use pl_block::LAST_LSN;

/// A place in the history of a database that outlives its generations: 0 is before its first block.
#[derive(Clone, Copy, Debug, PartialEq, Eq, PartialOrd, Ord)]
pub struct Position {
    /// Its number, at most 2^48.
    pub number: u64,
    ghost in_range: { number ≤ last_lsn },
}

/// How the LSNs of a generation lead to positions. The LSN of the last block of its images has the
/// position that these are of, and both rise by one from there on.
#[derive(Clone, Copy, Debug, PartialEq, Eq)]
pub struct Shift {
    /// The position that the images are of.
    pub base: Position,
    /// How many blocks the images are, at most 2^48.
    pub images: u64,
    ghost in_range: { images ≤ last_lsn },
}

// A number that is moved from one start to another.
fn moved(start: u64, to: u64, number: u64) -> Option<u64>
    requires to { to ≤ last_lsn }
    ensures value { result ≡ moved start to number }
{
    if number < start {
        return None;
    }
    let beyond = number - start;
    if beyond > LAST_LSN - to {
        return None;
    }
    Some(to + beyond)
}

impl Position {
    /// The position of a number, if it is at most 2^48.
    pub fn new(number: u64) -> Option<Position>
        // The position, if the number is at most 2^48, and else none.
        ensures value { option_map (λ p. p.number) result
            ≡ (if nat_le number last_lsn then Some number else None) }
    {
        if number <= LAST_LSN {
            Some(Position { number })
        } else {
            None
        }
    }
}

impl Shift {
    /// The shift of a generation whose images are of the position `base` and this many blocks, if
    /// they are at most 2^48.
    pub fn new(base: Position, images: u64) -> Option<Shift>
        // The shift, if there are at most 2^48 blocks of images, and else none.
        ensures some { option_map (λ s. s.images) result
            ≡ (if nat_le images last_lsn then Some images else None) }
        // It has this base.
        ensures base { IfSome result (λ s. s.base.number ≡ base.number) }
    {
        if images <= LAST_LSN {
            Some(Shift { base, images })
        } else {
            None
        }
    }

    /// The position of an LSN. There is none of an LSN below that of the last block of the images, nor
    /// above 2^48.
    pub fn position_of(self, lsn: u64) -> Option<Position>
        // The LSN less the blocks of images and with the base added, or none (`position_at`).
        ensures value { option_map (λ p. p.number) result
            ≡ position_at self.base.number self.images lsn }
    {
        Position::new(moved(self.images, self.base.number, lsn)?)
    }

    /// The LSN of a position. There is none of a position below the base, nor above 2^48.
    pub fn lsn_of(self, position: Position) -> Option<u64>
        // The position less the base and with the blocks of images added, or none (`lsn_at`).
        ensures value { result ≡ lsn_at self.base.number self.images position.number }
    {
        moved(self.base.number, self.images, position.number)
    }
}
