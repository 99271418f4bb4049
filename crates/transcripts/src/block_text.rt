//! A block as a word, `LSN:RECORD,RECORD..`, and the other way round.
//!
//! A Put is its bytes in hexadecimal, or `COUNT*BYTE`, and `@PAGE` or `@PAGE+OFFSET` after them
//! if they are not at the beginning of page 0. A Zero is `zero`, and `@PAGE` likewise.

use crate::transcript::{Stop, pushed};
use bytes::Bytes;
use pl_block::{Block, Record};
use std::alloc::{AllocError, Global};

// This many equal bytes.
fn run_of(alloc: Global, count: &str, byte: &str) -> Result<Vec<u8>, Stop> {
    let byte = u8::from_str_radix(byte, 16)?;
    Ok(vec![in alloc; byte; count.parse()?]?)
}

/// The bytes of the word: hexadecimal digits, or `COUNT*BYTE`.
pub(crate) fn bytes_in(alloc: Global, text: &str) -> Result<Vec<u8>, Stop> {
    match text.split_once('*') {
        Some((count, byte)) => run_of(alloc, count, byte),
        None => Ok(hex::decode(alloc, text)?),
    }
}

// A Put of the bytes at the place, `PAGE` or `PAGE+OFFSET`.
fn put_of(alloc: Global, bytes: &str, place: &str) -> Result<Record, Stop> {
    let (page, offset) = place.split_once('+').unwrap_or((place, "0"));
    let (page, offset) = (page.parse()?, offset.parse()?);
    let bytes = Bytes::from_vec(bytes_in(alloc, bytes)?)?;
    Ok(Record::Put {
        page,
        offset,
        bytes,
    })
}

fn record_of(alloc: Global, text: &str) -> Result<Record, Stop> {
    let (bytes, place) = text.split_once('@').unwrap_or((text, "0"));
    if bytes == "zero" {
        return Ok(Record::Zero {
            page: place.parse()?,
        });
    }
    put_of(alloc, bytes, place)
}

// The records of the words, with commas in between.
fn records_of(alloc: Global, entries: &str) -> Result<Vec<Record>, Stop> {
    let mut records = Vec::new(alloc);
    for entry in entries.split(',') {
        if !entry.is_empty() {
            records.push(record_of(alloc, entry)?)?;
        }
    }
    Ok(records)
}

/// The number and the records of the word.
pub(crate) fn parts_of(alloc: Global, word: &str) -> Result<(u64, Vec<Record>), Stop> {
    let (lsn, entries) = word.split_once(':').ok_or(Stop::Unread)?;
    Ok((lsn.parse()?, records_of(alloc, entries)?))
}

/// The block of the word.
pub fn block_of(alloc: Global, word: &str) -> Result<Block, Stop> {
    let (lsn, records) = parts_of(alloc, word)?;
    Ok(Block::new(alloc, lsn, records)?)
}

fn push_place(out: &mut String, page: u32, offset: u16) -> Result<(), Stop> {
    match (page, offset) {
        (0, 0) => Ok(()),
        (page, 0) => pushed(write!(out, "@{page}")),
        (page, offset) => pushed(write!(out, "@{page}+{offset}")),
    }
}

fn push_digits(out: &mut String, bytes: &[u8]) -> Result<(), Stop> {
    for byte in bytes {
        write!(out, "{byte:02x}")?;
    }
    Ok(())
}

fn push_record(out: &mut String, entry: &Record) -> Result<(), Stop> {
    match entry {
        Record::Put {
            page,
            offset,
            bytes,
        } => {
            push_digits(out, bytes.as_slice())?;
            push_place(out, *page, *offset)
        }
        Record::Zero { page } => {
            pushed(out.push_str("zero"))?;
            push_place(out, *page, 0)
        }
    }
}

fn push_records(out: &mut String, records: &[Record]) -> Result<(), Stop> {
    let mut mark = "";
    for entry in records {
        pushed(out.push_str(mark))?;
        push_record(out, entry)?;
        mark = ",";
    }
    Ok(())
}

/// Pushes the block's word.
pub fn push_block(out: &mut String, block: &Block) -> Result<(), Stop> {
    pushed(write!(out, " {}:", block.lsn()))?;
    push_records(out, block.records())
}

/// Pushes each block's word.
pub fn push_blocks(out: &mut String, blocks: &[Block]) -> Result<(), Stop> {
    for block in blocks {
        push_block(out, block)?;
    }
    Ok(())
}

// The word of the number, and the one of a block of one byte that is the number's last.
fn number_and_block(alloc: Global, number: u64) -> Result<(String, String), AllocError> {
    let word = format!(in alloc; "{number}")?;
    Ok((word, format!(in alloc; "{number}:{:02x}", number % 256)?))
}

/// The word of the number, and the one of a block of one byte that is the number's last: `300` and
/// `300:2c`. If memory is refused they are made again, once.
pub fn number_words(
    alloc: Global,
    number: u64,
    refused: &mut bool,
) -> Result<(String, String), AllocError> {
    let words = number_and_block(alloc, number);
    if words.is_ok() || *refused {
        return words;
    }
    *refused = true;
    number_and_block(alloc, number)
}
