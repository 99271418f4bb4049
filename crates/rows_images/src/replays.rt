//! Pages after blocks.

use crate::drawing::empty_page;
use bytes::Bytes;
use pl_block::{Block, BlockFault, Record};
use pl_images::replay;
use std::alloc::Global;

// A block of a Put of two bytes at offset 1 of page 5, a Zero of page 6, and a Put of a byte at offset 2 of page 5.
fn block(alloc: Global) -> Result<Block, BlockFault> {
    let mut records = Vec::new(alloc);
    records.push(Record::Put {
        page: 5,
        offset: 1,
        bytes: Bytes::from_static(&[0xaa, 0xbb]),
    })?;
    records.push(Record::Zero { page: 6 })?;
    records.push(Record::Put {
        page: 5,
        offset: 2,
        bytes: Bytes::from_static(&[0xcc]),
    })?;
    Block::new(alloc, 1, records)
}

// The first four bytes of a page after the block, whose bytes were one value.
fn after(alloc: Global, page: u32, byte: u8) -> Result<[u8; 4], BlockFault> {
    let blocks = [block(alloc)?];
    let mut bytes = empty_page(alloc)?;
    bytes.fill(byte);
    replay(page, &mut bytes, &blocks);
    Ok([bytes[0], bytes[1], bytes[2], bytes[3]])
}

// The same, asked once more if an allocation failed.
fn is_after(rt: &HostRuntime, page: u32, byte: u8, wanted: [u8; 4]) -> bool {
    let first = after(rt.alloc(), page, byte);
    let found = if first.is_ok() {
        first
    } else {
        after(rt.alloc(), page, byte)
    };
    match found {
        Ok(found) => found == wanted,
        Err(_) => false,
    }
}

#[test]
fn records_in_their_order(rt: HostRuntime) {
    assert!(rt; is_after(&rt, 5, 0, [0, 0xaa, 0xcc, 0]));
    assert!(rt; is_after(&rt, 6, 9, [0, 0, 0, 0]));
    assert!(rt; is_after(&rt, 7, 9, [9, 9, 9, 9]));
}
