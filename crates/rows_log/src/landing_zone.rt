//! The landing zone: it fills, its run ends at a gap, and its contents come out at its end.

ghost use Rattle.std.specs.Prelude.{◌≡◌};
ghost use Rattle.pl_block.specs.Block.{is_open_to};
ghost use Rattle.pl_landing.specs.Landing.{content_of};

use crate::stores::{Row, Size, Stop, block, meets_refusal, plays, wants};
use pl_block::{Block, LAST_LSN};
use pl_landing::Landing;
use std::alloc::Global;

fn new_landing(alloc: Global, refused: &mut bool) -> Result<Landing, Stop> {
    if let Ok(zone) = Landing::new(alloc, 3, 2) {
        return Ok(zone);
    }
    meets_refusal(refused)?;
    Ok(Landing::new(alloc, 3, 2)?)
}

// Whether the block's LSN has no content yet, or this block.
fn is_open(zone: &Landing, block: &Block) -> bool
    ensures value { result ≡ is_open_to block.now (content_of zone.now block.now.lsn) }
{
    match zone.content(block.lsn()) {
        Some(content) => content.same(block),
        None => true,
    }
}

fn land(zone: &mut Landing, copy: u8, block: Block) -> Result<(), Stop> {
    let near = zone.is_near(block.lsn());
    let open = is_open(zone, &block);
    if zone.copies() <= copy || !near || !open {
        return Err(Stop::Wrong("the block may not be put there"));
    }
    zone.put(copy, block);
    Ok(())
}

fn front(zone: &mut Landing, hard: u64) -> Result<Option<Block>, Stop> {
    if LAST_LSN < hard {
        return Err(Stop::Wrong("no such LSN"));
    }
    Ok(zone.take_front(hard))
}

fn run(zone: &Landing, hard: u64) -> Result<usize, Stop> {
    if LAST_LSN < hard {
        return Err(Stop::Wrong("no such LSN"));
    }
    Ok(zone.quorum_run(hard))
}

// The block of the LSN is put into the copy.
fn land_block(alloc: Global, zone: &mut Landing, lsn: u64, copy: u8) -> Result<(), Stop> {
    land(zone, copy, block(alloc, lsn, Size::Short)?)
}

fn has_run(zone: &Landing, hard: u64, len: usize) -> Result<(), Stop> {
    wants(run(zone, hard)? == len, "the length of the run")
}

fn has_copies(zone: &Landing, lsn: u64, copies: u8) -> Result<(), Stop> {
    wants(zone.copies_of(lsn) == copies, "the number of copies")
}

// Nothing comes out at the front.
fn has_no_front(zone: &mut Landing, hard: u64) -> Result<(), Stop> {
    wants(front(zone, hard)?.is_none(), "no content at the front")
}

// Whether the block comes out at the front, and is not there any more.
fn gives(zone: &mut Landing, hard: u64, wanted: &Block) -> Result<bool, Stop> {
    let taken = front(zone, hard)?;
    Ok(match taken {
        Some(content) => content.same(wanted) && zone.content(content.lsn()).is_none(),
        None => false,
    })
}

// The contents of the LSNs above `hard` come out at the front, one by one, and the others stay.
fn take_fronts(alloc: Global, zone: &mut Landing, hard: u64, count: u64) -> Result<(), Stop> {
    for before in hard..hard.saturating_add(count) {
        let wanted = block(alloc, before.saturating_add(1), Size::Short)?;
        let given = gives(zone, before, &wanted)?;
        wants(given, "the content at the front, taken out")?;
    }
    Ok(())
}

// The 64 LSNs above 100 are put into two copies.
fn fill_landing(alloc: Global, zone: &mut Landing) -> Result<(), Stop> {
    for lsn in 101..165u64 {
        land_block(alloc, zone, lsn, 0)?;
        land_block(alloc, zone, lsn, 2)?;
    }
    wants(!zone.is_near(165), "the 65th is too far")?;
    has_run(zone, 100, 64)?;
    has_run(zone, 101, 63)
}

// Ten LSNs more are put into a copy.
fn fill_again(alloc: Global, zone: &mut Landing) -> Result<(), Stop> {
    for lsn in 165..175u64 {
        has_copies(zone, lsn, 0)?;
        land_block(alloc, zone, lsn, 1)?;
        has_copies(zone, lsn, 1)?;
    }
    has_run(zone, 110, 54)
}

// The zone is filled, ten are taken out, it is filled again, and all are taken out.
fn fill_and_empty(alloc: Global, zone: &mut Landing) -> Result<(), Stop> {
    fill_landing(alloc, zone)?;
    take_fronts(alloc, zone, 100, 10)?;
    fill_again(alloc, zone)?;
    take_fronts(alloc, zone, 110, 64)?;
    has_no_front(zone, 174)
}

// What is put into each copy, of LSNs 1 to 6.
const LANDED: [(u64, u8); 12] = [
    (2, 0),
    (2, 1),
    (1, 2),
    (1, 2),
    (3, 0),
    (3, 1),
    (3, 2),
    (6, 0),
    (6, 1),
    (4, 1),
    (1, 0),
    (4, 1),
];

// In how many copies each of them is then.
const COPIES: [(u64, u8); 6] = [(1, 2), (2, 2), (3, 3), (4, 1), (5, 0), (6, 2)];

fn land_each(alloc: Global, zone: &mut Landing, landed: &[(u64, u8)]) -> Result<(), Stop> {
    for (lsn, copy) in landed {
        land_block(alloc, zone, *lsn, *copy)?;
    }
    Ok(())
}

fn have_copies(zone: &Landing, wanted: &[(u64, u8)]) -> Result<(), Stop> {
    for (lsn, copies) in wanted {
        has_copies(zone, *lsn, *copies)?;
        let same = zone.in_quorum(*lsn) == (2 <= *copies);
        wants(same, "whether in a quorum")?;
    }
    Ok(())
}

// There is a run of three, none after it, and a run of one after the gap.
fn have_runs(zone: &Landing) -> Result<(), Stop> {
    has_run(zone, 0, 3)?;
    has_run(zone, 3, 0)?;
    has_run(zone, 5, 1)
}

// A copy counts once, and the run ends at the first LSN that is in too few.
fn run_to_a_gap(alloc: Global, zone: &mut Landing) -> Result<(), Stop> {
    land_each(alloc, zone, &LANDED)?;
    have_copies(zone, &COPIES)?;
    have_runs(zone)?;
    has_no_front(zone, 4)?;
    take_fronts(alloc, zone, 0, 4)?;
    has_copies(zone, 6, 2)
}

// What is put into each copy, of LSNs on both sides of a multiple of 64, out of order.
const SCATTERED: [(u64, u8); 10] = [
    (65, 0),
    (61, 2),
    (68, 1),
    (63, 0),
    (64, 2),
    (60, 1),
    (67, 0),
    (62, 1),
    (65, 2),
    (66, 0),
];

// The contents are the blocks of the LSNs from the first on, in their order.
fn are_blocks_from(alloc: Global, contents: &[Block], first: u64) -> Result<(), Stop> {
    let mut next = first;
    for content in contents {
        let wanted = block(alloc, next, Size::Short)?;
        wants(content.same(&wanted), "the content of the next LSN")?;
        next = next.saturating_add(1);
    }
    Ok(())
}

// All contents but those that were taken at the front come out, in the order of their LSNs.
fn end_with_contents(alloc: Global, mut zone: Landing) -> Result<(), Stop> {
    land_each(alloc, &mut zone, &SCATTERED)?;
    take_fronts(alloc, &mut zone, 59, 2)?;
    let contents = zone.annul();
    wants(contents.len() == 7, "seven contents are left")?;
    are_blocks_from(alloc, &contents, 62)
}

fn end_without_contents(zone: Landing) -> Result<(), Stop> {
    wants(zone.annul().is_empty(), "no contents of an empty zone")
}

#[derive(Clone, Copy)]
enum LandingRow {
    Fills,
    RunToAGap,
    EndsWithContents,
    EndsEmpty,
}

impl Row for LandingRow {
    fn play(self, alloc: Global, refused: &mut bool) -> Result<(), Stop> {
        let mut zone = new_landing(alloc, refused)?;
        match self {
            LandingRow::Fills => fill_and_empty(alloc, &mut zone),
            LandingRow::RunToAGap => run_to_a_gap(alloc, &mut zone),
            LandingRow::EndsWithContents => end_with_contents(alloc, zone),
            LandingRow::EndsEmpty => end_without_contents(zone),
        }
    }
}

#[test]
fn landing_zone_fills(rt: HostRuntime) {
    plays(&rt, rt.alloc(), LandingRow::Fills)
}

#[test]
fn run_ends_at_a_gap(rt: HostRuntime) {
    plays(&rt, rt.alloc(), LandingRow::RunToAGap)
}

#[test]
fn zone_gives_its_contents(rt: HostRuntime) {
    plays(&rt, rt.alloc(), LandingRow::EndsWithContents)
}

#[test]
fn empty_zone_gives_nothing(rt: HostRuntime) {
    plays(&rt, rt.alloc(), LandingRow::EndsEmpty)
}
