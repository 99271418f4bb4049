//! The block codec, asked line by line.

use crate::answer::{push_bytes, push_fault, push_numbers, push_truth, push_word};
use crate::block_text::{block_of, bytes_in, parts_of, push_block};
use crate::transcript::{Stop, Subject};
use bytes::Bytes;
use pl_block::{Block, BlockFault, Record, decode, encode, encode_onto, encoded_len};
use std::alloc::Global;

/// The calls of the codec, each on its own, and the bytes that `onto` has put one after the other.
#[derive(Drop)]
pub struct Codec {
    alloc: Global,
    out: Vec<u8>,
}

/// The bytes of the words, each of hexadecimal digits or `COUNT*BYTE`.
pub fn bytes_of(alloc: Global, words: &[&str]) -> Result<Vec<u8>, Stop> {
    let mut bytes = Vec::new(alloc);
    for word in words {
        bytes.extend_from_slice(&bytes_in(alloc, word)?)?;
    }
    Ok(bytes)
}

// A block of this many records, each a byte at the beginning of a page of its own.
fn many_records(alloc: Global, count: u32) -> Result<Vec<Record>, Stop> {
    let mut records = Vec::new(alloc);
    for page in 0..count {
        let bytes = Bytes::from_vec(vec![in alloc; 0xaa]?)?;
        records.push(Record::Put {
            page,
            offset: 0,
            bytes,
        })?;
    }
    Ok(records)
}

// Shares the block, writes it, reads it and writes it again: it is the same each time.
fn goes_round(alloc: Global, block: Block) -> Result<bool, Stop> {
    let shared = block.share()?;
    let first = encode(alloc, &block)?;
    let read = decode(alloc, Bytes::copy_from_slice(alloc, &first)?)?;
    drop(block);
    let again = encode(alloc, &read.share()?)?;
    let same_len = encoded_len(&shared) == first.len() && encoded_len(&read) == first.len();
    Ok(same_len && read.same(&shared) && first.as_slice() == again.as_slice())
}

// Pushes the block, or its fault's code.
fn push_made(out: &mut String, made: Result<Block, BlockFault>) -> Result<(), Stop> {
    match made {
        Ok(block) => push_block(out, &block),
        Err(BlockFault::Malformed(fault)) => push_fault(out, fault.code()),
        Err(BlockFault::NoMemory) => Err(Stop::NoMemory),
    }
}

impl Codec {
    // How long the block is whose records these are, or its fault's code.
    fn round(&self, lsn: u64, records: Vec<Record>, out: &mut String) -> Result<(), Stop> {
        let made = Block::new(self.alloc, lsn, records);
        let Ok(block) = made else {
            return push_made(out, made);
        };
        push_numbers(out, &[encoded_len(&block) as u64])?;
        let same = goes_round(self.alloc, block)?;
        push_word(
            out,
            if same {
                "bytes"
            } else {
                "bytes of another block"
            },
        )
    }

    // Puts the block after what is there. If memory is refused, it has what it had.
    fn append(&mut self, block: &Block) -> Result<(), Stop> {
        let before = self.out.to_vec(self.alloc)?;
        match encode_onto(&mut self.out, block) {
            Ok(()) => Ok(()),
            Err(_) if self.out.as_slice() == before.as_slice() => Err(Stop::NoMemory),
            Err(_) => Err(Stop::Changed),
        }
    }

    // The same, and once more if memory is refused.
    fn onto(&mut self, word: &str, out: &mut String, refused: &mut bool) -> Result<(), Stop> {
        let block = block_of(self.alloc, word)?;
        let mut end = self.append(&block);
        if matches!(end, Err(Stop::NoMemory)) && !*refused {
            *refused = true;
            end = self.append(&block);
        }
        end?;
        push_bytes(out, &self.out)
    }

    fn decode(&self, words: &[&str], out: &mut String) -> Result<(), Stop> {
        let bytes = match words {
            ["zeros", count] => vec![in self.alloc; 0; count.parse()?]?,
            words => bytes_of(self.alloc, words)?,
        };
        push_made(out, decode(self.alloc, Bytes::from_vec(bytes)?))
    }

    // Whether a share of the first block is the second.
    fn same(&self, one: &str, other: &str, out: &mut String) -> Result<(), Stop> {
        let one = block_of(self.alloc, one)?.share()?;
        push_truth(out, one.same(&block_of(self.alloc, other)?))
    }
}

impl Codec {
    fn round_of(&self, word: &str, out: &mut String) -> Result<(), Stop> {
        let (lsn, records) = parts_of(self.alloc, word)?;
        self.round(lsn, records, out)
    }

    fn round_of_many(&self, count: &str, out: &mut String) -> Result<(), Stop> {
        let records = many_records(self.alloc, count.parse()?)?;
        self.round(1, records, out)
    }

    // Pushes what is read of the block.
    fn push_read(
        &self,
        name: &str,
        word: &str,
        words: &[&str],
        out: &mut String,
    ) -> Result<(), Stop> {
        let block = block_of(self.alloc, word)?;
        push_read_of(self.alloc, &block, name, words, out)
    }
}

// Pushes the bytes of the block.
fn push_encoded(alloc: Global, block: &Block, out: &mut String) -> Result<(), Stop> {
    push_bytes(out, &encode(alloc, block)?)
}

fn push_partitions(block: &Block, out: &mut String) -> Result<(), Stop> {
    for partition in block.partitions() {
        push_numbers(out, &[u64::from(*partition)])?;
    }
    Ok(())
}

fn push_read_of(
    alloc: Global,
    block: &Block,
    name: &str,
    words: &[&str],
    out: &mut String,
) -> Result<(), Stop> {
    match (name, words) {
        ("encode", []) => push_encoded(alloc, block, out),
        ("partitions", []) => push_partitions(block, out),
        ("touches", [partition]) => push_truth(out, block.touches(partition.parse()?)),
        _ => Err(Stop::Unread),
    }
}

impl Subject for Codec {
    fn new(alloc: Global) -> Codec {
        Codec {
            alloc,
            out: Vec::new(alloc),
        }
    }

    fn answer(&mut self, words: &[&str], out: &mut String, refused: &mut bool) -> Result<(), Stop> {
        match words {
            ["decode", bytes @ ..] => self.decode(bytes, out),
            ["onto", block] => self.onto(block, out, refused),
            ["block", word] => self.round_of(word, out),
            ["records", count] => self.round_of_many(count, out),
            ["same", one, other] => self.same(one, other, out),
            [name, word, words @ ..] => self.push_read(name, word, words, out),
            _ => Err(Stop::Unread),
        }
    }
}
