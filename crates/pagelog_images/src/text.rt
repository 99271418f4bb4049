//! Blocks as a line of hexadecimal text.

use bytes::{Buf, Bytes};
use hex::FromHexError;
use pl_block::{Block, Failed, decode, encode};
use std::alloc::{AllocError, AllocFailed, Global};

/// Why a line has no answer.
#[derive(Clone, Copy, Debug, PartialEq, Eq)]
pub(crate) enum LineFault {
    /// It is not the text of blocks.
    Malformed,
    /// An allocation failed.
    NoMemory,
}

impl From<AllocError> for LineFault {
    fn from(_error: AllocError) -> LineFault {
        LineFault::NoMemory
    }
}

impl<T: Drop> From<AllocFailed<T>> for LineFault {
    fn from(_error: AllocFailed<T>) -> LineFault {
        LineFault::NoMemory
    }
}

/// The bytes of a line.
fn bytes_in(alloc: Global, line: &str) -> Result<Bytes, LineFault> {
    match hex::decode(alloc, line) {
        Ok(bytes) => Ok(Bytes::from_vec(bytes)?),
        Err(FromHexError::OutOfMemory) => Err(LineFault::NoMemory),
        Err(_) => Err(LineFault::Malformed),
    }
}

/// Takes the first block.
fn take_block(alloc: Global, rest: &mut Bytes) -> Result<Block, LineFault> {
    let Ok(len) = rest.try_get_u32() else {
        return Err(LineFault::Malformed);
    };
    if rest.len() < len as usize {
        return Err(LineFault::Malformed);
    }
    match decode(alloc, rest.split_to(len as usize)?) {
        Ok(block) => Ok(block),
        Err(Failed::NoMemory) => Err(LineFault::NoMemory),
        Err(Failed::Malformed(_)) => Err(LineFault::Malformed),
    }
}

/// The blocks of a line.
pub(crate) fn blocks_in(alloc: Global, line: &str) -> Result<Vec<Block>, LineFault> {
    let mut rest = bytes_in(alloc, line)?;
    let mut blocks = Vec::new(alloc);
    // A block has more bytes than its length has.
    for _ in 0..line.len() {
        if rest.is_empty() {
            break;
        }
        blocks.push(take_block(alloc, &mut rest)?)?;
    }
    Ok(blocks)
}

/// The line of blocks.
pub(crate) fn text_of(alloc: Global, blocks: &[Block]) -> Result<String, AllocError> {
    let mut bytes = Vec::new(alloc);
    for block in blocks {
        let spelling = encode(alloc, block)?;
        bytes.extend_from_slice(&(spelling.len() as u32).to_be_bytes())?;
        bytes.extend_from_slice(spelling.as_slice())?;
    }
    hex::encode(alloc, bytes)
}
