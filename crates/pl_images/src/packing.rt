//! Puts that are gathered into blocks, each filled before the next one begins.

ghost use Rattle.std.specs.Prelude.{◌≡◌, ℕ, ◌+◌, ◌-◌, ◌/◌, ◌<◌, ◌≤◌, ◌==◌, [], None, length, IfOk, OnOk};
ghost use Rattle.std.specs.List.{AllByRecursion, prefix_len};
ghost use Rattle.pl_block.specs.Bounds.{last_lsn, longest_block, page_size};
ghost use Rattle.pl_block.specs.Numbered.{AreNumbered};
ghost use Rattle.pl_block.specs.Spelling.{IsBlock};
ghost use Rattle.pl_pages.specs.Page.{empty_page, page_of};
ghost use Rattle.pl_images.specs.Packing.{Closes, HasImage, HasRoom, Puts, PutsFront, PutsRun, begun, empty_len, heads_of, packed};

use crate::image::Image;
use bytes::Bytes;
use pl_block::{Block, Failed, LONGEST_BLOCK, PAGES_PER_PARTITION, Record};
use std::alloc::{AllocError, Global};
use std::cmp::min;
use std::marker::Model;
use std::mem;

/// The bytes of a block without records.
const EMPTY_LEN: usize = 12;

/// The bytes of a Put beside those that it puts.
const PUT_LEN: usize = 9;

/// The bytes of a partition among the annotations.
const PARTITION_LEN: usize = 2;

/// Zeros within a page that no Put has.
const HOLE: usize = 64;

/// Room in a block for which no Put is cut.
const LEAST: usize = 64;

/// Blocks, and the records of one that is open.
#[derive(Debug, Drop)]
pub(crate) struct Packing {
    /// The LSN of the first block.
    first: u64,
    /// The blocks that are full.
    blocks: Vec<Block>,
    /// The records of the open block.
    records: Vec<Record>,
    /// The bytes of the open block.
    size: usize,
    /// The partition of its last record.
    partition: Option<u16>,
}

impl Model for Packing {
    ghost use Rattle.pl_images.specs.Packing.{PackingState, IsPacking};

    ghost Value = { PackingState };

    ghost view = { λ p. record {
      first = p.first;
      blocks = p.blocks.items;
      records = p.records.items;
      size = p.size;
      partition = p.partition;
    } };

    ghost invariant = { λ p. IsPacking p.first p.size p.partition p.blocks.items p.records.items };
}

// How many zeros the bytes begin with.
fn blank_len(bytes: &[u8]) -> usize
    ensures within { result ≤ length bytes.now }
    ensures value { result ≡ prefix_len (λ byte. byte == 0) bytes.now }
{
    for place in 0..bytes.len() {
        if bytes[place] != 0 {
            return place;
        }
    }
    bytes.len()
}

// How many bytes there are before the first hole.
fn filled_len(bytes: &[u8]) -> usize
    ensures within { result ≤ length bytes.now }
    ensures some { 0 < length bytes.now → prefix_len (λ byte. byte == 0) bytes.now ≡ 0
        → 0 < result }
{
    let mut zeros = 0;
    for place in 0..bytes.len() {
        zeros = if bytes[place] == 0 { zeros + 1 } else { 0 };
        if zeros == HOLE {
            return place + 1 - HOLE;
        }
    }
    bytes.len()
}

// A block of records that fit one.
fn block_of(alloc: Global, lsn: u64, records: Vec<Record>) -> Result<Block, AllocError>
    requires block { IsBlock (record { lsn = lsn; records = records.items }) }
    ensures ok { IfOk result (λ block. block ≡ record { lsn = lsn; records = records.items }) }
{
    match Block::new(alloc, lsn, records) {
        Ok(block) => Ok(block),
        Err(Failed::NoMemory) => Err(AllocError),
        Err(Failed::Malformed(_)) => unreachable!(),
    }
}

impl Packing {
    /// Nothing is packed.
    pub(crate) fn new(alloc: Global, first: u64) -> Packing
        requires some { 1 ≤ first }
        ensures value { result ≡ record {
          first = first;
          blocks = [];
          records = [];
          size = empty_len;
          partition = None;
        } }
    {
        Packing {
            first,
            blocks: Vec::new(alloc),
            records: Vec::new(alloc),
            size: EMPTY_LEN,
            partition: None,
        }
    }

    // Ends the open block, and begins another one.
    fn close(&mut self, alloc: Global) -> Result<(), AllocError>
        requires room { self.old.first + length self.old.blocks ≤ last_lsn }
        ensures ok { OnOk result (Closes self.old self.new) }
    {
        let lsn = self.first + self.blocks.len() as u64;
        let records = mem::replace(&mut self.records, Vec::new(alloc));
        self.size = EMPTY_LEN;
        self.partition = None;
        self.blocks.push(block_of(alloc, lsn, records)?)?;
        Ok(())
    }

    // The bytes of a Put of the partition beside those that it puts.
    fn heads(&self, partition: u16) -> usize
        ensures value { result ≡ heads_of self.now.partition partition }
    {
        match self.partition {
            Some(open) if open == partition => PUT_LEN,
            _ => PARTITION_LEN + PUT_LEN,
        }
    }

    // How many bytes a Put of the partition may have in the open block.
    fn room(&self, partition: u16) -> usize
        ensures value { result
            ≡ longest_block - (self.now.size + heads_of self.now.partition partition) }
        ensures empty { length self.now.records ≡ 0 → page_size ≤ result }
    {
        LONGEST_BLOCK.saturating_sub(self.size + self.heads(partition))
    }

    // Makes room for a Put of the partition, and returns how many of its bytes the open block takes. If that is hardly any, it is
    // another block that does.
    fn make_room(&mut self, alloc: Global, partition: u16, len: usize) -> Result<usize, AllocError>
        requires some { 0 < len }
        requires within { len ≤ page_size }
        requires room { self.old.first + begun self.old ≤ last_lsn + 1 }
        ensures ok { IfOk result (λ n. HasRoom self.old self.new partition len n) }
    {
        if !self.records.is_empty() && self.room(partition) < min(len, LEAST) {
            self.close(alloc)?;
        }
        Ok(min(self.room(partition), len))
    }

    // Puts bytes into a page of the partition, in the open block.
    fn push(
        &mut self,
        partition: u16,
        page: u32,
        offset: u16,
        bytes: Bytes,
    ) -> Result<(), AllocError>
        requires partition { partition ≡ page / 65536 }
        requires some { 0 < length bytes }
        requires within { offset + length bytes ≤ page_size }
        requires room { self.old.size + heads_of self.old.partition partition + length bytes
            ≤ longest_block }
        ensures ok { OnOk result (Puts self.old self.new page offset bytes) }
    {
        let len = self.heads(partition) + bytes.len();
        self.records.push(Record::Put {
            page,
            offset,
            bytes,
        })?;
        self.size += len;
        self.partition = Some(partition);
        Ok(())
    }

    // Each page has as many bytes as a page has. Proof only: this does nothing.
    fn are_pages(&self)
        ensures value { (page : ℕ) → length (packed page self.now) ≡ page_size }
    {
        let _first = self.first;
    }

    // Puts the first bytes into a page, as many as a block takes.
    fn put_front(
        &mut self,
        alloc: Global,
        page: u32,
        offset: usize,
        bytes: &mut Bytes,
    ) -> Result<usize, AllocError>
        requires some { 0 < length bytes.old }
        requires within { offset + length bytes.old ≤ page_size }
        requires room { self.old.first + begun self.old ≤ last_lsn + 1 }
        ensures ok { IfOk result (λ n.
            PutsFront self.old self.new page offset bytes.old bytes.new n) }
    {
        let partition = (page / PAGES_PER_PARTITION) as u16;
        let len = self.make_room(alloc, partition, bytes.len())?;
        let front = bytes.split_to(len)?;
        self.push(partition, page, offset as u16, front)?;
        Ok(len)
    }

    // Puts bytes into a page, from an offset on.
    fn put(
        &mut self,
        alloc: Global,
        page: u32,
        offset: usize,
        mut bytes: Bytes,
    ) -> Result<(), AllocError>
        requires within { offset + length bytes ≤ page_size }
        requires room { self.old.first + begun self.old + length bytes ≤ last_lsn + 1 }
        ensures ok { OnOk result (Puts self.old self.new page offset bytes) }
    {
        // Proof only: this does nothing.
        self.are_pages();
        let mut at = offset;
        while !bytes.is_empty() {
            at += self.put_front(alloc, page, at, &mut bytes)?;
        }
        Ok(())
    }

    // Puts what comes first in the image from a place on, between zeros before it and a hole after it; and returns where that ends.
    fn put_run(&mut self, alloc: Global, image: &Image, at: usize) -> Result<usize, AllocError>
        requires within { at < page_size }
        requires room { self.old.first + begun self.old + page_size ≤ last_lsn + 1 + at }
        ensures ok { IfOk result (λ end. PutsRun self.old self.new image.now at end) }
    {
        let start = at + blank_len(&image.bytes()[at..]);
        let end = start + filled_len(&image.bytes()[start..]);
        let run = image.bytes.slice(start..end)?;
        self.put(alloc, image.page(), start, run)?;
        Ok(end)
    }

    /// Puts a page of an image, which has had no record yet.
    pub(crate) fn put_image(&mut self, alloc: Global, image: &Image) -> Result<(), AllocError>
        requires blank { packed image.now.page self.old ≡ empty_page }
        requires room { self.old.first + begun self.old + page_size ≤ last_lsn + 1 }
        ensures ok { OnOk result (HasImage self.old self.new image.now) }
    {
        let mut at = 0;
        while at < image.bytes().len() {
            at = self.put_run(alloc, image, at)?;
        }
        Ok(())
    }

    /// All blocks.
    pub(crate) fn finish(mut self, alloc: Global) -> Result<Vec<Block>, AllocError>
        requires room { self.first + begun self ≤ last_lsn + 1 }
        ensures pages { IfOk result (λ blocks.
            (page : ℕ) → page_of page blocks.items ≡ packed page self) }
        ensures numbered { IfOk result (λ blocks. AreNumbered self.first blocks.items) }
        ensures valid { IfOk result (λ blocks. AllByRecursion IsBlock blocks.items) }
        ensures few { IfOk result (λ blocks. length blocks.items ≡ begun self) }
    {
        if !self.records.is_empty() {
            self.close(alloc)?;
        }
        let Packing { blocks, .. } = self;
        Ok(blocks)
    }
}
