//! The broker: it fills, gives up its oldest blocks, and takes more.

ghost use Rattle.std.specs.Prelude.{◌≡◌};

use crate::stores::{Row, Size, Stop, block, meets_refusal, plays, wants};
use pl_block::Block;
use pl_broker::{Broker, ROOM};
use std::alloc::Global;
use std::ops::Range;

/// A broker, and the LSN of its oldest block.
#[derive(Drop)]
struct Newest {
    first: u64,
    broker: Broker,
    ghost begins: { broker.first ≡ first },
}

impl Newest {
    fn push(&mut self, block: Block) -> Result<(), Stop> {
        let len = self.broker.len();
        let lsn = block.lsn();
        wants(len < ROOM, "full")?;
        if ROOM <= len || lsn < self.first || lsn - self.first != len as u64 {
            return Err(Stop::Wrong("not the next block"));
        }
        self.broker.push(block);
        Ok(())
    }

    fn get(&self, lsn: u64) -> Result<&Block, Stop> {
        if lsn < self.first || self.broker.len() as u64 <= lsn - self.first {
            return Err(Stop::Wrong("no block of the LSN"));
        }
        Ok(self.broker.get(lsn))
    }

    fn oldest(&self) -> Result<&Block, Stop> {
        if self.broker.len() == 0 {
            return Err(Stop::Wrong("empty"));
        }
        Ok(self.broker.oldest())
    }

    fn pop(&mut self) -> Result<Block, Stop> {
        if self.broker.len() == 0 {
            return Err(Stop::Wrong("empty"));
        }
        let oldest = self.broker.pop_oldest();
        self.first = oldest.lsn() + 1;
        Ok(oldest)
    }
}

fn new_broker(alloc: Global, refused: &mut bool) -> Result<Newest, Stop> {
    let first = 7;
    if let Ok(broker) = Broker::new(alloc, first) {
        return Ok(Newest { first, broker });
    }
    meets_refusal(refused)?;
    let broker = Broker::new(alloc, first)?;
    Ok(Newest { first, broker })
}

fn push_each(alloc: Global, newest: &mut Newest, lsns: Range<u64>) -> Result<(), Stop> {
    for lsn in lsns {
        newest.push(block(alloc, lsn, Size::Short)?)?;
    }
    Ok(())
}

// The oldest block is that one, and is taken out.
fn pops(newest: &mut Newest, wanted: &Block) -> Result<(), Stop> {
    wants(newest.oldest()?.same(wanted), "the oldest block")?;
    wants(newest.pop()?.same(wanted), "the oldest block, taken out")
}

fn pop_each(alloc: Global, newest: &mut Newest, lsns: Range<u64>) -> Result<(), Stop> {
    for lsn in lsns {
        let wanted = block(alloc, lsn, Size::Short)?;
        pops(newest, &wanted)?;
    }
    Ok(())
}

fn gives(newest: &Newest, wanted: &Block) -> Result<(), Stop> {
    let found = newest.get(wanted.lsn())?;
    wants(found.same(wanted), "the block of the LSN")
}

fn get_each(alloc: Global, newest: &Newest, lsns: Range<u64>) -> Result<(), Stop> {
    for lsn in lsns {
        let wanted = block(alloc, lsn, Size::Short)?;
        gives(newest, &wanted)?;
    }
    Ok(())
}

// The broker fills, gives up its ten oldest blocks, and takes ten more.
fn fill_broker(alloc: Global, newest: &mut Newest) -> Result<(), Stop> {
    push_each(alloc, newest, 7..263)?;
    wants(newest.broker.len() == 256, "256 blocks")?;
    pop_each(alloc, newest, 7..17)?;
    wants(newest.broker.len() == 246, "246 blocks")?;
    push_each(alloc, newest, 263..273)?;
    get_each(alloc, newest, 17..273)
}

#[derive(Clone, Copy)]
enum BrokerRow {
    Fills,
}

impl Row for BrokerRow {
    fn play(self, alloc: Global, refused: &mut bool) -> Result<(), Stop> {
        match self {
            BrokerRow::Fills => {
                let mut newest = new_broker(alloc, refused)?;
                fill_broker(alloc, &mut newest)
            }
        }
    }
}

#[test]
fn broker_fills(rt: HostRuntime) {
    plays(&rt, rt.alloc(), BrokerRow::Fills)
}
