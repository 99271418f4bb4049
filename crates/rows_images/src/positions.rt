//! Positions of a generation that begins with the pages at position 10, made of three blocks.

use pl_images::{Position, Shift};

// The number of the position of an LSN.
fn position_of(base: u64, images: u64, lsn: u64) -> Option<u64> {
    let shift = Shift::new(Position::new(base)?, images)?;
    Some(shift.position_of(lsn)?.number)
}

// The LSN of a position.
fn lsn_of(base: u64, images: u64, position: u64) -> Option<u64> {
    let shift = Shift::new(Position::new(base)?, images)?;
    shift.lsn_of(Position::new(position)?)
}

const LAST: u64 = 1 << 48;

#[test]
fn positions_lead_back(rt: HostRuntime) {
    assert!(rt; position_of(10, 3, 3) == Some(10));
    assert!(rt; position_of(10, 3, 5) == Some(12));
    assert!(rt; lsn_of(10, 3, 12) == Some(5));
    // More blocks of images than there were blocks before.
    assert!(rt; position_of(2, 3, 5) == Some(4));
    assert!(rt; lsn_of(2, 3, 4) == Some(5));
}

#[test]
fn positions_out_of_range(rt: HostRuntime) {
    assert!(rt; position_of(10, 3, 2) == None);
    assert!(rt; lsn_of(10, 3, 9) == None);
    assert!(rt; position_of(10, 3, LAST) == None);
    assert!(rt; position_of(10, 10, LAST) == Some(LAST));
    assert!(rt; lsn_of(3, 10, LAST) == None);
    assert!(rt; position_of(LAST + 1, 3, 3) == None);
    assert!(rt; position_of(10, LAST + 1, LAST + 1) == None);
}
