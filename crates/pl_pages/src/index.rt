//! Which blocks of the log change a page.

ghost use Rattle.std.specs.Prelude.{◌≡◌, ◌+◌, ◌<◌, ◌≤◌, ◌==◌, ◌++◌, ◌∷◌, ℕ, List, [], false, length, IfOk, IsOk, OnOk, OnErr, if◌then◌else◌, vec_len, vec_capacity};
ghost use Rattle.pl_block.specs.Spelling.{IsBlock};
ghost use Rattle.pl_pages.specs.Index.{HasBlock, HasRoomUnder, MayEndWith, SameIndex, ends_with, listed, lsns_at, with_lsn, without_lsn};
ghost use Rattle.pl_pages.specs.State.{changes_page};

use crate::changes::makes_page;
use pl_block::Block;
use std::alloc::{AllocError, Global};
use std::collections::HashMap;
use std::fmt;
use std::marker::Model;

/// Of each page, the LSNs of the blocks that change it, as far as blocks were entered.
#[derive(Drop)]
pub(crate) struct Index {
    alloc: Global,
    /// How many blocks of the log were entered.
    entered: u64,
    /// The LSNs under a page, rising.
    lsns: HashMap<u32, Vec<u64>>,
    /// Of these, the LSNs of blocks that make the whole page. What it leads to is looked at before it is
    /// used; one that found no memory lacks.
    images: HashMap<u32, Vec<u64>>,
}

impl Model for Index {
    ghost use Rattle.pl_pages.specs.Codes.{index_code};
    ghost use Rattle.pl_pages.specs.Index.{AreUpTo, IndexState, listed, seen_lists};
    ghost use Rattle.std.specs.Prelude.{ℕ};

    ghost Value = { IndexState };

    ghost coded = { index_code };

    ghost view = { λ i. record { entered = i.entered; lsns = seen_lists i.lsns.entries } };

    ghost invariant = { λ i. (page : ℕ) → AreUpTo i.entered (listed i.lsns page) };
}

impl Index {
    /// An index of no blocks. It allocates nothing.
    pub(crate) fn new(alloc: Global) -> Index
        ensures entered { result.entered ≡ 0 }
        ensures lsns { (page : ℕ) → lsns_at result page ≡ [] }
    {
        Index {
            alloc,
            entered: 0,
            lsns: HashMap::new(alloc),
            images: HashMap::new(alloc),
        }
    }

    /// How many blocks were entered.
    pub(crate) fn entered(&self) -> u64
        ensures value { result ≡ self.now.entered }
    {
        self.entered
    }

    /// The LSNs of the blocks that change the page, rising.
    pub(crate) fn lsns(&self, page: u32) -> &[u64]
        ensures value { result.now ≡ lsns_at self.now page }
    {
        match self.lsns.get(&page) {
            Some(lsns) => lsns.as_slice(),
            None => &[],
        }
    }

    /// The LSN of the newest block up to an LSN that was noted as one that makes the whole page, or 0. It
    /// costs a search.
    pub(crate) fn newest_image(&self, page: u32, lsn: u64) -> u64
        ensures within { result ≤ lsn }
    {
        let Some(images) = self.images.get(&page) else {
            return 0;
        };
        let count = images.partition_point(|image| *image <= lsn);
        newest_of(images, count).min(lsn)
    }

    /// Enters the block after those that were entered. An error changes nothing.
    pub(crate) fn enter(&mut self, block: &Block) -> Result<(), AllocError>
        requires next { block.now.lsn ≡ self.old.entered + 1 }
        ensures ok { OnOk result (HasBlock self.old block.now self.new) }
        ensures err { OnErr result (SameIndex self.old self.new) }
    {
        match add_block(&mut self.lsns, self.alloc, block) {
            Ok(()) => {
                self.entered = block.lsn();
                note_images(&mut self.images, self.alloc, block);
                Ok(())
            }
            Err(error) => {
                remove_block(&mut self.lsns, block);
                Err(error)
            }
        }
    }
}

impl fmt::Debug for Index {
    fn fmt<W: fmt::Write>(&self, f: &mut fmt::Formatter<W>) -> fmt::Result {
        let count = self.entered;
        write!(f, "{count} blocks")
    }
}

// The last of the first LSNs, or 0 if there is none.
fn newest_of(lsns: &[u64], count: usize) -> u64 {
    match lsns.get(count.wrapping_sub(1)) {
        Some(lsn) => *lsn,
        None => 0,
    }
}

// Notes a block under each page that it makes whole, as far as there is memory.
fn note_images(lists: &mut HashMap<u32, Vec<u64>>, alloc: Global, block: &Block) {
    let lsn = block.lsn();
    for change in block.records() {
        if makes_page(change) && add(lists, alloc, change.page(), lsn).is_err() {
            return;
        }
    }
}

// Whether the last of the LSNs is this one.
fn is_last(lsns: &[u64], lsn: u64) -> bool
    requires some { 0 < lsn }
    ensures value { result ≡ ends_with lsn lsns.now }
{
    match lsns.last() {
        Some(last) => *last == lsn,
        None => false,
    }
}

// Puts an LSN after the others, if it is not there.
fn add_once(lsns: &mut Vec<u64>, lsn: u64) -> Result<(), AllocError>
    requires some { 0 < lsn }
    ensures ok { OnOk result (lsns.new.items ≡ with_lsn lsn lsns.old.items) }
    ensures err { OnErr result (lsns.new.items ≡ lsns.old.items) }
    ensures succeeds { vec_len lsns.old < vec_capacity lsns.old → IsOk result }
{
    if is_last(lsns, lsn) {
        return Ok(());
    }
    lsns.push(lsn)?;
    Ok(())
}

// Takes an LSN away, if it is the last.
fn remove_last(lsns: &mut Vec<u64>, lsn: u64)
    requires some { 0 < lsn }
    ensures value { lsns.new.items ≡ without_lsn lsn lsns.old.items }
{
    if is_last(lsns, lsn) {
        lsns.truncate(lsns.len() - 1);
    }
}

// Enters an LSN under a page.
fn add(
    lists: &mut HashMap<u32, Vec<u64>>,
    alloc: Global,
    page: u32,
    lsn: u64,
) -> Result<(), AllocError>
    requires some { 0 < lsn }
    ensures ok { OnOk result ((q : ℕ) → listed lists.new q ≡
        (if page == q then with_lsn lsn (listed lists.old q) else listed lists.old q)) }
    ensures err { OnErr result ((q : ℕ) → listed lists.new q ≡ listed lists.old q) }
    ensures succeeds { HasRoomUnder lists.old page → IsOk result }
{
    if let Some(lsns) = lists.get_mut(&page) {
        return add_once(lsns, lsn);
    }
    let mut lsns = Vec::new(alloc);
    lsns.push(lsn)?;
    lists.insert(page, lsns)?;
    Ok(())
}

// Takes an LSN away that was entered last under a page.
fn remove(lists: &mut HashMap<u32, Vec<u64>>, page: u32, lsn: u64)
    requires some { 0 < lsn }
    ensures value { (q : ℕ) → listed lists.new q ≡
        (if page == q then without_lsn lsn (listed lists.old q) else listed lists.old q) }
{
    if let Some(lsns) = lists.get_mut(&page) {
        remove_last(lsns, lsn);
    }
}

// Enters a block under each page that it changes. An error leaves it under some of them.
fn add_block(
    lists: &mut HashMap<u32, Vec<u64>>,
    alloc: Global,
    block: &Block,
) -> Result<(), AllocError>
    requires above { (page : ℕ) → ends_with block.now.lsn (listed lists.old page) ≡ false }
    ensures valid { IsBlock block.now }
    ensures ok { OnOk result ((page : ℕ) → listed lists.new page ≡ (if changes_page page block.now
        then listed lists.old page ++ block.now.lsn ∷ [] else listed lists.old page)) }
    ensures err { OnErr result ((page : ℕ) → MayEndWith block.now.lsn (changes_page page block.now)
        (listed lists.old page) (listed lists.new page)) }
{
    let lsn = block.lsn();
    for change in block.records() {
        add(lists, alloc, change.page(), lsn)?;
    }
    Ok(())
}

// Takes a block away again, which was entered last, from each page under which it is.
fn remove_block(lists: &mut HashMap<u32, Vec<u64>>, block: &Block)
    ensures value { (page : ℕ) (before : List ℕ) → ends_with block.now.lsn before ≡ false
        → MayEndWith block.now.lsn (changes_page page block.now) before (listed lists.old page)
        → listed lists.new page ≡ before }
{
    let lsn = block.lsn();
    for change in block.records() {
        remove(lists, change.page(), lsn);
    }
}
