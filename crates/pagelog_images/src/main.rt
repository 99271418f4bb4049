//! `pagelog_images`: makes images of blocks, and of these the blocks that a generation begins with. scripts/images compares them with
//! those of the keepers.
//!
//! Each line of its input is the hexadecimal text of blocks, each after four bytes of its length. It answers a line of blocks in the
//! same form, or `malformed`.
#![tactic(auto)]

mod images;
mod text;

use crate::images::images_of;
use crate::text::{LineFault, blocks_in, text_of};
use pl_block::Block;
use pl_images::{are_rising, blocks_of};
use std::alloc::Global;
use std::io::{self, BufRead, BufReader};

/// The blocks that make the pages of these blocks.
fn begun(alloc: Global, blocks: &[Block]) -> Result<Vec<Block>, LineFault> {
    let images = images_of(alloc, blocks)?;
    if !are_rising(&images) || images.len() > 1 << 32 {
        return Err(LineFault::Malformed);
    }
    Ok(blocks_of(alloc, &images, 1)?)
}

/// The line that answers one.
fn answer(alloc: Global, line: &str) -> Result<String, LineFault> {
    let blocks = blocks_in(alloc, line)?;
    Ok(text_of(alloc, &begun(alloc, &blocks)?)?)
}

fn main(rt: HostRuntime) -> io::Result<()> {
    let alloc = rt.alloc();
    for line in BufReader::new(alloc, rt.reader())?.lines(alloc) {
        let line = line?;
        match answer(alloc, line.as_str()) {
            Ok(text) => println!(rt; "{text}")?,
            Err(LineFault::Malformed) => println!(rt; "malformed")?,
            Err(LineFault::NoMemory) => println!(rt; "out of memory")?,
        }
    }
    Ok(())
}
