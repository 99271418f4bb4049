//! Destaged blocks: they are read again, and touch the partitions that they touched.

use crate::stores::{Row, Size, Stop, block, meets_refusal, plays, wants};
use pl_block::Block;
use pl_destage::Destage;
use std::alloc::Global;

fn new_destage(alloc: Global, refused: &mut bool) -> Result<Destage, Stop> {
    if let Ok(destage) = Destage::new(alloc) {
        return Ok(destage);
    }
    meets_refusal(refused)?;
    Ok(Destage::new(alloc)?)
}

fn append(destage: &mut Destage, block: &Block, refused: &mut bool) -> Result<(), Stop> {
    if block.lsn() != destage.len() + 1 {
        return Err(Stop::Wrong("not the next block"));
    }
    if destage.append(block).is_ok() {
        return Ok(());
    }
    meets_refusal(refused)?;
    Ok(destage.append(block)?)
}

fn get(destage: &mut Destage, lsn: u64, refused: &mut bool) -> Result<Block, Stop> {
    if lsn < 1 || destage.len() < lsn {
        return Err(Stop::Wrong("no block of the LSN"));
    }
    if let Ok(block) = destage.get(lsn) {
        return Ok(block);
    }
    meets_refusal(refused)?;
    Ok(destage.get(lsn)?)
}

fn append_each(
    alloc: Global,
    destage: &mut Destage,
    count: u64,
    size: Size,
    refused: &mut bool,
) -> Result<(), Stop> {
    for before in 0..count {
        let next = block(alloc, before.saturating_add(1), size)?;
        append(destage, &next, refused)?;
    }
    wants(destage.len() == count, "the number of blocks")
}

// The block of the LSN is the one that was destaged.
fn reads(
    alloc: Global,
    destage: &mut Destage,
    lsn: u64,
    size: Size,
    refused: &mut bool,
) -> Result<(), Stop> {
    let wanted = block(alloc, lsn, size)?;
    wants(
        get(destage, lsn, refused)?.same(&wanted),
        "the block of the LSN",
    )
}

fn read_each(
    alloc: Global,
    destage: &mut Destage,
    lsns: &[u64],
    refused: &mut bool,
) -> Result<(), Stop> {
    for lsn in lsns {
        reads(alloc, destage, *lsn, Size::Short, refused)?;
    }
    Ok(())
}

// Each of the blocks from 1 on is got this many times in turn.
fn read_all(
    alloc: Global,
    destage: &mut Destage,
    times: u8,
    size: Size,
    refused: &mut bool,
) -> Result<(), Stop> {
    for before in 0..destage.len() {
        for _ in 0..times {
            reads(alloc, destage, before.saturating_add(1), size, refused)?;
        }
    }
    Ok(())
}

const AGAIN: &[u64] = &[300, 237, 236, 1, 2, 300, 1];

// Each is got twice in turn, so that the second time it is cached; the first ones are got again when the
// cache has lost them.
fn read_three_hundred(
    alloc: Global,
    destage: &mut Destage,
    refused: &mut bool,
) -> Result<(), Stop> {
    read_all(alloc, destage, 2, Size::Short, refused)?;
    read_each(alloc, destage, AGAIN, refused)?;
    wants(destage.len() == 300, "300 blocks")
}

fn touches(destage: &Destage, lsn: u64, lo: u16, hi: u16) -> Result<bool, Stop> {
    if lsn < 1 || destage.len() < lsn {
        return Err(Stop::Wrong("no block of the LSN"));
    }
    Ok(destage.touches_between(lsn, lo, hi))
}

/// LSN, first and last partition, and whether the block of the LSN touches one of them.
const TOUCHED: &[(u64, u16, u16, bool)] = &[
    (5, 5, 5, true),
    (5, 0, 4, false),
    (5, 6, 101, false),
    (5, 6, 102, true),
    (5, 102, 102, true),
    (5, 103, 65_535, false),
    (5, 6, 4, false),
    (300, 0, 65_535, true),
    (300, 6, 6, true),
    (300, 0, 5, false),
    (300, 99, 100, true),
    (300, 101, 65_535, false),
];

fn touch_each(destage: &Destage, touched: &[(u64, u16, u16, bool)]) -> Result<(), Stop> {
    for (lsn, lo, hi, wanted) in touched {
        let same = touches(destage, *lsn, *lo, *hi)? == *wanted;
        wants(same, "whether it touches")?;
    }
    Ok(())
}

// 4,096 places of the index are reserved at a time.
const PAST_A_CHUNK: &[u64] = &[1, 4095, 4096, 4097, 8192, 8193, 8200];

#[derive(Clone, Copy)]
enum DestageRow {
    ReadThreeHundred,
    TouchThreeHundred,
    ReadLongBlocks,
    ReadPastAChunk,
}

impl DestageRow {
    // How many blocks are destaged, and their size. Thirty blocks of 24,000 bytes need three segments.
    fn blocks(self) -> (u64, Size) {
        match self {
            DestageRow::ReadThreeHundred | DestageRow::TouchThreeHundred => (300, Size::Short),
            DestageRow::ReadLongBlocks => (30, Size::Long),
            DestageRow::ReadPastAChunk => (8200, Size::Short),
        }
    }

    fn play_on(self, alloc: Global, destage: &mut Destage, refused: &mut bool) -> Result<(), Stop> {
        let (count, size) = self.blocks();
        append_each(alloc, destage, count, size, refused)?;
        match self {
            DestageRow::ReadThreeHundred => read_three_hundred(alloc, destage, refused),
            DestageRow::TouchThreeHundred => touch_each(destage, TOUCHED),
            DestageRow::ReadLongBlocks => read_all(alloc, destage, 1, size, refused),
            DestageRow::ReadPastAChunk => read_each(alloc, destage, PAST_A_CHUNK, refused),
        }
    }
}

impl Row for DestageRow {
    fn play(self, alloc: Global, refused: &mut bool) -> Result<(), Stop> {
        let mut destage = new_destage(alloc, refused)?;
        self.play_on(alloc, &mut destage, refused)
    }
}

#[test]
fn destaged_blocks_are_read(rt: HostRuntime) {
    plays(&rt, rt.alloc(), DestageRow::ReadThreeHundred)
}

#[test]
fn destaged_blocks_touch(rt: HostRuntime) {
    plays(&rt, rt.alloc(), DestageRow::TouchThreeHundred)
}

#[test]
fn long_blocks_fill_segments(rt: HostRuntime) {
    plays(&rt, rt.alloc(), DestageRow::ReadLongBlocks)
}

#[test]
fn index_outgrows_a_chunk(rt: HostRuntime) {
    plays(&rt, rt.alloc(), DestageRow::ReadPastAChunk)
}
