//! Pages beside the plain replay: more versions than frames, and what a get finds or makes.

ghost use Rattle.std.specs.Prelude.{◌≡◌, ◌≤◌, length, vec_len, IfOk};
ghost use Rattle.pl_pages.specs.State.{FitsLog};
ghost use Rattle.rows_database.specs.Fits.{is_record-prop};
ghost use Rattle.std.proofs.Props.{props};
ghost use Rattle.std.specs.List.{AllByRecursion-prop};

use crate::database::Database;
use bytes::Bytes;
use pl_block::{Block, PAGE_SIZE, Record};
use pl_log::DbLog;
use pl_log::laws::reports_harden_contents;
use pl_pages::laws::pages_fit_longer_logs;
use pl_pages::{Pages, redo};
use std::alloc::{AllocError, Global};
use std::process::Abort;
use transcripts::transcript::plays;

/// A log with its pages.
#[derive(Drop)]
struct Served {
    alloc: Global,
    log: DbLog,
    pages: Pages,
    ghost fits: { FitsLog pages log.hardened } by { Prim.hlevel (props, AllByRecursion-prop, is_record-prop) },
}

fn open(alloc: Global, chunks: u8) -> Result<Served, AllocError> {
    Ok(Served {
        alloc,
        log: DbLog::new(alloc, 3, 2)?,
        pages: Pages::new(alloc, usize::from(chunks).max(1)),
    })
}

// Makes the changes of a block to a page.
fn replay_block(block: &Block, page: u32, bytes: &mut [u8])
    requires len { length bytes.old ≡ 8192 }
{
    for change in block.records() {
        if change.page() == page {
            redo(change, bytes);
        }
    }
}

// The page at an LSN, by the plain replay of each block up to it.
fn replayed(alloc: Global, log: &mut DbLog, page: u32, lsn: u64) -> Result<Vec<u8>, AllocError>
    requires hard { lsn ≤ length log.old.hardened }
    ensures log { log.new ≡ log.old }
    ensures len { IfOk result (λ bytes. vec_len bytes ≡ 8192) }
{
    let mut bytes = vec![in alloc; 0u8; PAGE_SIZE]?;
    for before in 0..lsn {
        let block = log.read(before + 1)?;
        replay_block(&block, page, &mut bytes);
    }
    Ok(bytes)
}

// A block that writes two bytes over one another, at the beginning of the page or one after it.
fn block_of(alloc: Global, lsn: u64, page: u32, byte: u8) -> Result<Block, AllocError> {
    let mut records = Vec::new(alloc);
    for value in [0xee, byte] {
        records.push(Record::Put {
            page,
            offset: u16::from(byte % 2),
            bytes: Bytes::from_vec(vec![in alloc; value; 2]?)?,
        })?;
    }
    match Block::new(alloc, lsn, records) {
        Ok(block) => Ok(block),
        Err(_) => Err(AllocError),
    }
}

impl Served {
    // Whether the copy took the block.
    fn write(&mut self, block: Block, copy: u8) -> Result<bool, AllocError> {
        let may = self.log.in_window(block.lsn()) && self.log.agrees(&block);
        if !may || self.log.copies() <= copy {
            return Ok(false);
        }
        self.log.write(copy, block);
        Ok(true)
    }

    fn report(&mut self, lsn: u64) -> Result<bool, AllocError> {
        reports_harden_contents();
        pages_fit_longer_logs();
        if !self.log.can_harden(lsn) {
            return Ok(false);
        }
        self.log.report(lsn)?;
        Ok(true)
    }

    // Hardens the next block. Whether the log took it.
    fn harden(&mut self, page: u32, byte: u8) -> Result<bool, AllocError> {
        let lsn = self.log.hard().saturating_add(1);
        let block = block_of(self.alloc, lsn.min(1 << 48), page, byte)?;
        let other = block.share()?;
        Ok(self.write(block, 0)? && self.write(other, 1)? && self.report(lsn)?)
    }

    fn advance(&mut self, steps: u64) -> Result<(), AllocError> {
        self.pages.advance(&mut self.log, 0, steps)
    }

    // Whether a get answers so, with the bytes of the plain replay there.
    fn gives(&mut self, page: u32, lsn: u64, exact: bool, at: u64) -> Result<bool, AllocError> {
        if self.log.hard() < lsn || self.log.hard() < at {
            return Ok(false);
        }
        let bytes = replayed(self.alloc, &mut self.log, page, at)?;
        let (given, page) = self.pages.get(&mut self.log, page, lsn, exact)?;
        Ok(given == at && page == bytes.as_slice())
    }
}

const PAGES_OUTGROW_ARENA: &str = "\
open start 2 65536 1            = Ok
2 22 primary 1 fill 1 64 0      = Done
2 22 primary 1 fill 1 64 1      = Done
2 22 primary 1 report 64        = Done
2 22 primary 1 fill 65 70 0     = Done
2 22 primary 1 fill 65 70 1     = Done
2 22 primary 1 report 70        = Done
3 33 secondary 1 get 0 1 exact  = Page 1 01+0
3 33 secondary 1 get 0 2 exact  = Page 2 02+0
3 33 secondary 1 get 0 3 exact  = Page 3 03+0
3 33 secondary 1 get 0 4 exact  = Page 4 04+0
3 33 secondary 1 get 0 5 exact  = Page 5 05+0
3 33 secondary 1 get 0 6 exact  = Page 6 06+0
3 33 secondary 1 get 0 7 exact  = Page 7 07+0
3 33 secondary 1 get 0 8 exact  = Page 8 08+0
3 33 secondary 1 get 0 9 exact  = Page 9 09+0
3 33 secondary 1 get 0 10 exact = Page 10 0a+0
3 33 secondary 1 get 0 11 exact = Page 11 0b+0
3 33 secondary 1 get 0 12 exact = Page 12 0c+0
3 33 secondary 1 get 0 13 exact = Page 13 0d+0
3 33 secondary 1 get 0 14 exact = Page 14 0e+0
3 33 secondary 1 get 0 15 exact = Page 15 0f+0
3 33 secondary 1 get 0 16 exact = Page 16 10+0
3 33 secondary 1 get 0 17 exact = Page 17 11+0
3 33 secondary 1 get 0 18 exact = Page 18 12+0
3 33 secondary 1 get 0 19 exact = Page 19 13+0
3 33 secondary 1 get 0 20 exact = Page 20 14+0
3 33 secondary 1 get 0 21 exact = Page 21 15+0
3 33 secondary 1 get 0 22 exact = Page 22 16+0
3 33 secondary 1 get 0 23 exact = Page 23 17+0
3 33 secondary 1 get 0 24 exact = Page 24 18+0
3 33 secondary 1 get 0 25 exact = Page 25 19+0
3 33 secondary 1 get 0 26 exact = Page 26 1a+0
3 33 secondary 1 get 0 27 exact = Page 27 1b+0
3 33 secondary 1 get 0 28 exact = Page 28 1c+0
3 33 secondary 1 get 0 29 exact = Page 29 1d+0
3 33 secondary 1 get 0 30 exact = Page 30 1e+0
3 33 secondary 1 get 0 31 exact = Page 31 1f+0
3 33 secondary 1 get 0 32 exact = Page 32 20+0
3 33 secondary 1 get 0 33 exact = Page 33 21+0
3 33 secondary 1 get 0 34 exact = Page 34 22+0
3 33 secondary 1 get 0 35 exact = Page 35 23+0
3 33 secondary 1 get 0 36 exact = Page 36 24+0
3 33 secondary 1 get 0 37 exact = Page 37 25+0
3 33 secondary 1 get 0 38 exact = Page 38 26+0
3 33 secondary 1 get 0 39 exact = Page 39 27+0
3 33 secondary 1 get 0 40 exact = Page 40 28+0
3 33 secondary 1 get 0 41 exact = Page 41 29+0
3 33 secondary 1 get 0 42 exact = Page 42 2a+0
3 33 secondary 1 get 0 43 exact = Page 43 2b+0
3 33 secondary 1 get 0 44 exact = Page 44 2c+0
3 33 secondary 1 get 0 45 exact = Page 45 2d+0
3 33 secondary 1 get 0 46 exact = Page 46 2e+0
3 33 secondary 1 get 0 47 exact = Page 47 2f+0
3 33 secondary 1 get 0 48 exact = Page 48 30+0
3 33 secondary 1 get 0 49 exact = Page 49 31+0
3 33 secondary 1 get 0 50 exact = Page 50 32+0
3 33 secondary 1 get 0 51 exact = Page 51 33+0
3 33 secondary 1 get 0 52 exact = Page 52 34+0
3 33 secondary 1 get 0 53 exact = Page 53 35+0
3 33 secondary 1 get 0 54 exact = Page 54 36+0
3 33 secondary 1 get 0 55 exact = Page 55 37+0
3 33 secondary 1 get 0 56 exact = Page 56 38+0
3 33 secondary 1 get 0 57 exact = Page 57 39+0
3 33 secondary 1 get 0 58 exact = Page 58 3a+0
3 33 secondary 1 get 0 59 exact = Page 59 3b+0
3 33 secondary 1 get 0 60 exact = Page 60 3c+0
3 33 secondary 1 get 0 61 exact = Page 61 3d+0
3 33 secondary 1 get 0 62 exact = Page 62 3e+0
3 33 secondary 1 get 0 63 exact = Page 63 3f+0
3 33 secondary 1 get 0 64 exact = Page 64 40+0
3 33 secondary 1 get 0 65 exact = Page 65 41+0
3 33 secondary 1 get 0 66 exact = Page 66 42+0
3 33 secondary 1 get 0 67 exact = Page 67 43+0
3 33 secondary 1 get 0 68 exact = Page 68 44+0
3 33 secondary 1 get 0 69 exact = Page 69 45+0
3 33 secondary 1 get 0 70 exact = Page 70 46+0
3 33 secondary 1 get 0 1 exact  = Page 1 01+0
";

#[test]
fn pages_outgrow_arena(rt: HostRuntime) {
    assert!(rt; plays::<Database>(&rt, PAGES_OUTGROW_ARENA));
}

// Hardens this many blocks of page 0, and returns whether each version is right.
fn has_versions(served: &mut Served, count: u8) -> Result<bool, AllocError> {
    for byte in 1..=count {
        if !served.harden(0, byte)? {
            return Ok(false);
        }
    }
    for lsn in 1..=u64::from(count) {
        if !served.gives(0, lsn, true, lsn)? {
            return Ok(false);
        }
    }
    Ok(true)
}

// Whether each of 200 versions is right, of which 64 have a frame at a time; and the first again.
fn has_200_versions(served: &mut Served) -> Result<bool, AllocError> {
    Ok(has_versions(served, 200)? && served.gives(0, 1, true, 1)?)
}

// Each get: the page, the LSN, whether exact, and the LSN that is answered.
type Get = (u32, u64, bool, u64);

const GETS: &[Get] = &[
    // At what is applied, made and then found, and of a page that a later block changes.
    (1, 3, false, 18),
    (1, 18, false, 18),
    (0, 18, false, 18),
    // One block after, and if no block changes the page.
    (1, 19, true, 19),
    (0, 20, true, 20),
    // At an old LSN, with a version and without one.
    (1, 18, true, 18),
    (1, 17, true, 17),
    (1, 15, true, 15),
    (2, 20, true, 20),
];

// Hardens 20 blocks that change two pages. Whether the log took them.
fn harden_two_pages(served: &mut Served) -> Result<bool, AllocError> {
    for byte in 1..=20 {
        if !served.harden(u32::from(byte / 16), byte)? {
            return Ok(false);
        }
    }
    Ok(true)
}

fn gives_all(served: &mut Served, gets: &[Get]) -> Result<bool, AllocError> {
    for (page, lsn, exact, at) in gets {
        if !served.gives(*page, *lsn, *exact, *at)? {
            return Ok(false);
        }
    }
    Ok(true)
}

// Whether each get is right, of 20 blocks that change two pages, of which 18 are applied.
fn hardens_and_gives(served: &mut Served, gets: &[Get]) -> Result<bool, AllocError> {
    if !harden_two_pages(served)? {
        return Ok(false);
    }
    served.advance(18)?;
    gives_all(served, gets)
}

// Whether a get of the page at the LSN gives bytes of which the first is this one.
fn shows(served: &mut Served, page: u32, lsn: u64, byte: u8) -> Result<bool, AllocError> {
    if served.log.hard() < lsn {
        return Ok(false);
    }
    let (at, bytes) = served.pages.get(&mut served.log, page, lsn, true)?;
    Ok(at == lsn && bytes.first() == Some(&byte))
}

// Hardens 6,000 blocks, of which every second changes page 0 and the others page 1.
fn harden_in_turn(served: &mut Served) -> Result<bool, AllocError> {
    for number in 0..6_000_u32 {
        if !served.harden(number % 2, 0xaa)? {
            return Ok(false);
        }
    }
    Ok(true)
}

// Gets this many pages that no block changes, so that each frame has a version.
fn fill_frames(served: &mut Served) -> Result<bool, AllocError> {
    for page in 2..66_u32 {
        if !shows(served, page, 0, 0)? {
            return Ok(false);
        }
    }
    Ok(true)
}

// Gets the two pages in turn, 300,000 times.
fn get_in_turn(served: &mut Served) -> Result<bool, AllocError> {
    for _ in 0..300_000_u32 {
        if !shows(served, 0, 6_000, 0xaa)? || !shows(served, 1, 6_000, 0xaa)? {
            return Ok(false);
        }
    }
    Ok(true)
}

fn hardens_and_gets(served: &mut Served) -> Result<bool, AllocError> {
    Ok(harden_in_turn(served)? && fill_frames(served)? && get_in_turn(served)?)
}

/// What is played on an empty log and its pages, which have one chunk of versions.
enum Row {
    ManyVersions,
    Gets(&'static [Get]),
    InTurn,
}

fn is_right(alloc: Global, row: &Row) -> Result<bool, AllocError> {
    let mut served = open(alloc, 1)?;
    match row {
        Row::ManyVersions => has_200_versions(&mut served),
        Row::Gets(gets) => hardens_and_gives(&mut served, gets),
        Row::InTurn => hardens_and_gets(&mut served),
    }
}

// The row is right; it is played once more if an allocation failed.
fn holds(rt: &impl Abort, alloc: Global, row: &Row) {
    let mut end = is_right(alloc, row);
    if end.is_err() {
        end = is_right(alloc, row);
    }
    assert!(rt; matches!(end, Ok(true)));
}

#[test]
fn versions_outgrow_arena(rt: HostRuntime) {
    holds(&rt, rt.alloc(), &Row::ManyVersions);
}

#[test]
fn page_by_its_versions(rt: HostRuntime) {
    holds(&rt, rt.alloc(), &Row::Gets(GETS));
}

/// Two pages of 3,000 changes each are got in turn, 300,000 times, when each frame had a version
/// before: each replaces another one, and is then found. If one took the frame of the other, each get
/// would make 3,000 changes, and the test would take minutes.
#[test]
fn two_pages_in_turn(rt: HostRuntime) {
    holds(&rt, rt.alloc(), &Row::InTurn);
}
