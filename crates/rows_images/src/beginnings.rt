//! Blocks that make the pages of images, as bytes and as lengths worked by hand.

use crate::drawing::{Drawn, Run, images};
use pl_block::{Block, NoMemory, encode_onto, encoded_len};
use pl_images::{are_rising, blocks_of};
use std::alloc::Global;

// The blocks of drawn pages, with the LSNs from 1 on; none if the pages do not rise.
fn begun(alloc: Global, drawn: &[Drawn]) -> Result<Vec<Block>, NoMemory> {
    let images = images(alloc, drawn)?;
    if !are_rising(&images) || images.len() > 1_000 {
        return Ok(Vec::new(alloc));
    }
    blocks_of(alloc, &images, 1)
}

// Whether the bytes of the blocks, one after the other, are these.
fn spells(alloc: Global, drawn: &[Drawn], wanted: &str) -> Result<bool, NoMemory> {
    let mut bytes = Vec::new(alloc);
    for block in &begun(alloc, drawn)? {
        encode_onto(&mut bytes, block)?;
    }
    let text = hex::encode(alloc, bytes)?;
    Ok(text.as_str() == wanted)
}

// Whether the blocks have these lengths.
fn is_as_long(alloc: Global, drawn: &[Drawn], wanted: &[usize]) -> Result<bool, NoMemory> {
    let blocks = begun(alloc, drawn)?;
    let mut is_so = blocks.len() == wanted.len();
    for (block, len) in blocks.iter().zip(wanted) {
        is_so = is_so && encoded_len(block) == *len;
    }
    Ok(is_so)
}

// The same, asked once more if an allocation of the row's own failed.
fn spell(rt: &HostRuntime, drawn: &[Drawn], wanted: &str) -> bool {
    match spells(rt.alloc(), drawn, wanted) {
        Ok(is_so) => is_so,
        Err(_) => spells(rt.alloc(), drawn, wanted) == Ok(true),
    }
}

fn are_as_long(rt: &HostRuntime, drawn: &[Drawn], wanted: &[usize]) -> bool {
    match is_as_long(rt.alloc(), drawn, wanted) {
        Ok(is_so) => is_so,
        Err(_) => is_as_long(rt.alloc(), drawn, wanted) == Ok(true),
    }
}

const ONE: Run = Run {
    offset: 3,
    len: 1,
    byte: 0xaa,
};

const LAST: Run = Run {
    offset: 8_191,
    len: 1,
    byte: 0xbb,
};

const FULL: Run = Run {
    offset: 0,
    len: 8_192,
    byte: 0xcc,
};

const ONE_BYTE: &[Drawn] = &[Drawn {
    page: 7,
    runs: &[ONE],
}];

// LSN 1, partition 0, one Put of a byte at offset 3 of page 7.
#[test]
fn one_byte_of_a_page(rt: HostRuntime) {
    assert!(rt;
        spell(
            &rt,
            ONE_BYTE,
            "000000000000000100010000000101000000070003\
        0001aa"
        )
    );
}

const PAGE_OF_ZEROS: &[Drawn] = &[Drawn { page: 0, runs: &[] }];

#[test]
fn page_of_zeros_has_no_block(rt: HostRuntime) {
    assert!(rt; spell(&rt, PAGE_OF_ZEROS, ""));
}

const TWO_PARTITIONS: &[Drawn] = &[
    Drawn {
        page: 65_535,
        runs: &[LAST],
    },
    Drawn {
        page: 65_536,
        runs: &[ONE],
    },
];

// Partitions 0 and 1, and two Puts, in the order of their pages.
#[test]
fn two_partitions_in_one_block(rt: HostRuntime) {
    assert!(rt;
        spell(
            &rt,
            TWO_PARTITIONS,
            "0000000000000001000200000001000201\
        0000ffff1fff0001bb\
        01000100000003\
        0001aa"
        )
    );
}

const SHORT_HOLE: &[Drawn] = &[Drawn {
    page: 0,
    runs: &[
        ONE,
        Run {
            offset: 67,
            len: 1,
            byte: 0xbb,
        },
    ],
}];

const HOLE: &[Drawn] = &[Drawn {
    page: 0,
    runs: &[
        ONE,
        Run {
            offset: 68,
            len: 1,
            byte: 0xbb,
        },
    ],
}];

// 63 zeros are put: 14 bytes, and a Put of 65. 64 are not: two Puts of one byte.
#[test]
fn hole_of_64_zeros(rt: HostRuntime) {
    assert!(rt; are_as_long(&rt, SHORT_HOLE, &[14 + 9 + 65]));
    assert!(rt; are_as_long(&rt, HOLE, &[14 + 10 + 10]));
}

const FOUR_PAGES: &[Drawn] = &[
    Drawn {
        page: 0,
        runs: &[FULL],
    },
    Drawn {
        page: 1,
        runs: &[FULL],
    },
    Drawn {
        page: 2,
        runs: &[FULL],
    },
    Drawn {
        page: 3,
        runs: &[FULL],
    },
];

// 14 bytes, three Puts of a page, and 8,142 bytes of the fourth one fill a block. 50 bytes are left.
#[test]
fn put_is_cut_where_a_block_is_full(rt: HostRuntime) {
    assert!(rt; are_as_long(&rt, FOUR_PAGES, &[32_768, 14 + 9 + 50]));
}

const ROOM_OF_64: &[Drawn] = &[
    Drawn {
        page: 0,
        runs: &[FULL],
    },
    Drawn {
        page: 1,
        runs: &[FULL],
    },
    Drawn {
        page: 2,
        runs: &[FULL],
    },
    Drawn {
        page: 3,
        runs: &[Run {
            offset: 0,
            len: 8_069,
            byte: 1,
        }],
    },
    Drawn {
        page: 4,
        runs: &[FULL],
    },
];

const ROOM_OF_63: &[Drawn] = &[
    Drawn {
        page: 0,
        runs: &[FULL],
    },
    Drawn {
        page: 1,
        runs: &[FULL],
    },
    Drawn {
        page: 2,
        runs: &[FULL],
    },
    Drawn {
        page: 3,
        runs: &[Run {
            offset: 0,
            len: 8_070,
            byte: 1,
        }],
    },
    Drawn {
        page: 4,
        runs: &[FULL],
    },
];

// For less than 64 bytes no Put is cut, unless it is as short.
#[test]
fn room_of_64_bytes(rt: HostRuntime) {
    assert!(rt; are_as_long(&rt, ROOM_OF_64, &[32_768, 14 + 9 + 8_128]));
    assert!(rt; are_as_long(&rt, ROOM_OF_63, &[32_696, 14 + 9 + 8_192]));
}

const FALLING: &[Drawn] = &[
    Drawn {
        page: 8,
        runs: &[ONE],
    },
    Drawn {
        page: 7,
        runs: &[ONE],
    },
];

const TWICE: &[Drawn] = &[
    Drawn {
        page: 7,
        runs: &[ONE],
    },
    Drawn {
        page: 7,
        runs: &[LAST],
    },
];

// Whether the pages of drawn images rise.
fn rise(rt: &HostRuntime, drawn: &[Drawn]) -> bool {
    match images(rt.alloc(), drawn) {
        Ok(images) => are_rising(&images),
        Err(_) => match images(rt.alloc(), drawn) {
            Ok(images) => are_rising(&images),
            Err(_) => false,
        },
    }
}

#[test]
fn pages_that_do_not_rise(rt: HostRuntime) {
    assert!(rt; rise(&rt, TWO_PARTITIONS));
    assert!(rt; !rise(&rt, FALLING));
    assert!(rt; !rise(&rt, TWICE));
}
