//! The pages of one database.

ghost use Rattle.std.specs.Prelude.{◌≡◌, ◌+◌, ◌-◌, ◌<◌, ◌≤◌, ℕ, List, length, min, IfOk, IfSome, IsOk, OnOk, OnErr, slice_index_or};
ghost use Rattle.std.specs.Borrow.{sem};
ghost use Rattle.pl_block.specs.Block.{Content};
ghost use Rattle.pl_pages.specs.Ends.{EndsFitting};
ghost use Rattle.pl_pages.specs.Index.{IsAfterChanges, IsIndex, count_before};
ghost use Rattle.pl_pages.specs.Replay.{AreLsnsOf, AreOfBlocks, AreOfLog, HasPage, IsTrueAfter, IsUpTo, KeepsVersions};
ghost use Rattle.pl_pages.specs.State.{FitsLog, GivesPage, IsAdvanced, IsBlankThere, SameApplied, StillFits, applied_at, chosen_lsn, lsns_of};

use crate::applied::{applied_in, choose, raise};
use crate::changes::is_image;
use crate::index::Index;
use crate::versions::{Found, Versions};
use pl_block::PAGES_PER_PARTITION;
use pl_log::DbLog;
use std::alloc::{AllocError, Global};
use std::marker::Model;
use std::ops::Range;

/// How many blocks a call of `follow` enters at most: as many as the window of a log has.
const MOST_FOLLOWED: u64 = 64;

/// The pages of a database whose log is kept beside it: how far each partition is applied, which
/// blocks change each page, and versions of pages.
///
/// Every call takes the log that the pages are of. The pages fit each log that begins with the one
/// of the call before, so that the log may grow in between.
#[derive(Debug, Drop)]
pub struct Pages {
    /// The applied LSN of each partition, up to the last that was advanced.
    applied: Vec<u64>,
    index: Index,
    versions: Versions,
}

impl Model for Pages {
    ghost use Rattle.pl_pages.specs.State.{PagesState};
    ghost use Rattle.pl_pages.specs.Codes.{pages_code};

    ghost Value = { PagesState };

    ghost coded = { pages_code };

    ghost view = { λ p. record {
      applied = p.applied.items;
      indexed = p.index.entered;
      index = p.index.lsns;
      versions = p.versions.versions;
      chunks = p.versions.chunks;
    } };
}

impl Pages {
    /// Pages of which none was applied, with 1 to 65,536 chunks of 64 versions. It allocates
    /// nothing.
    pub fn new(alloc: Global, chunks: usize) -> Pages
        // 1 to 65,536 chunks.
        requires some { 1 ≤ chunks }
        requires few { chunks ≤ 65536 }
        // The pages fit every log (`FitsLog`).
        ensures fits { (log : List Content) → FitsLog result log }
        // No partition is applied.
        ensures applied { (partition : ℕ) → applied_at result partition ≡ 0 }
        // The pages may have this many chunks.
        ensures chunks { result.chunks ≡ chunks }
    {
        Pages {
            applied: Vec::new(alloc),
            index: Index::new(alloc),
            versions: Versions::new(alloc, chunks as u32),
        }
    }

    /// The LSN up to which the partition is applied, 0 at the start. The cost is constant.
    pub fn applied(&self, partition: u16) -> u64
        // The LSN that the partition is applied to.
        ensures value { result ≡ applied_at self.now partition }
    {
        applied_in(&self.applied, partition)
    }

    /// Applies the log to the partition: its applied LSN becomes the smaller of `hard` and what it
    /// was plus `steps`.
    ///
    /// It allocates only for a partition above all that were advanced before: 8 bytes for each up to
    /// it. An error means that an allocation failed: no applied LSN has changed.
    pub fn advance(&mut self, log: &mut DbLog, partition: u16, steps: u64) -> Result<(), AllocError>
        // The pages fit the log.
        requires fits { FitsLog self.old log.old.hardened }
        // The log is as before.
        ensures log { log.new ≡ log.old }
        // The pages fit the log, and the number of chunks stays.
        ensures fits { StillFits self.old self.new log.old.hardened }
        // The applied LSN becomes the smaller of `hard` and what it was plus the steps, and no other
        // partition's changes.
        ensures ok { OnOk result
            (IsAdvanced self.old self.new partition steps (length log.old.hardened)) }
        // After an error no applied LSN has changed.
        ensures err { OnErr result (SameApplied self.old self.new) }
        // An advance of a partition at or below one that was advanced before does not fail.
        ensures succeeds { partition < length self.old.applied → IsOk result }
    {
        let applied = self.applied(partition);
        let target = applied.saturating_add(steps).min(log.hard());
        raise(&mut self.applied, partition, target)
    }

    /// Enters the next 64 hardened blocks into the index, or as many as there are, so that a get finds
    /// few that are not in it.
    ///
    /// It reads each of them once, and allocates 8 bytes, at most 16, under each page that one changes.
    /// An error means that an allocation failed: some of the blocks may be in the index, and a get
    /// enters the others.
    pub fn follow(&mut self, log: &mut DbLog) -> Result<(), AllocError>
        // The pages fit the log.
        requires fits { FitsLog self.old log.old.hardened }
        // The log is as before.
        ensures log { log.new ≡ log.old }
        // The pages fit the log, and the number of chunks stays.
        ensures fits { StillFits self.old self.new log.old.hardened }
        // 64 blocks more, or as many as there are, are in the index.
        ensures ok { OnOk result
            (self.new.indexed ≡ min (length log.old.hardened) (self.old.indexed + 64)) }
        // No applied LSN changes.
        ensures applied { SameApplied self.old self.new }
    {
        let entered = self.index.entered();
        let to = entered.saturating_add(MOST_FOLLOWED).min(log.hard());
        catch_up(log, &mut self.index, to)
    }

    /// The bytes of the page at an LSN of the log, and that LSN: the one asked for if `exact` is
    /// set or the partition is applied no further, else the one that the partition is applied to.
    ///
    /// The LSN is at most `hard`. The 8,192 bytes are lent until the next call.
    ///
    /// A get enters the hardened blocks that are not in the index yet, each once. Besides, it costs two
    /// searches, and if no version of the page is kept at the LSN a replay of the blocks that change
    /// the page: from a copy of the newest version below it on, or from the newest block below it that
    /// makes the whole page (a Zero, or a Put of 8,192 bytes), whichever is newer; if there is
    /// neither, of all of them. A new version takes a frame; once all have versions, or there is no memory
    /// for one more, that of the oldest. If there is no memory to note where the version is, it is made
    /// again when it is asked for again. An error means that another allocation failed: no applied LSN has changed.
    pub fn get(
        &mut self,
        log: &mut DbLog,
        page: u32,
        lsn: u64,
        exact: bool,
    ) -> Result<(u64, &[u8]), AllocError>
        // The pages fit the log.
        requires fits { FitsLog self.old log.old.hardened }
        // The LSN is at most `hard`.
        requires hard { lsn ≤ length log.old.hardened }
        // When the bytes are no longer lent, the pages fit the log, and the applied LSNs and the
        // number of chunks are as before, after an error too.
        ensures* fits { sem 𝓛 (EndsFitting self.entry log.old.hardened) }
        // The LSN that is answered (`chosen_lsn`), and the 8,192 bytes of the page at that LSN: the log
        // up to it, replayed (`GivesPage`).
        ensures page { IfOk result (λ given.
            GivesPage self.old log.old.hardened page lsn exact given.0 given.1.now) }
        // The log is as before.
        ensures log { log.new ≡ log.old }
        // A get of a page that no block changes up to the LSN does not fail, once the index has the whole log
        // and a version is kept (`IsBlankThere`).
        ensures succeeds { IsBlankThere self.old log.old.hardened page
            (chosen_lsn self.old page lsn exact) → IsOk result }
    {
        let partition = (page / PAGES_PER_PARTITION) as u16;
        let at = choose(self.applied(partition), lsn, exact);
        let place = find_or_make(log, &mut self.index, &mut self.versions, page, at)?;
        Ok((at, self.versions.bytes(place)))
    }
}

// The place of a version that is the page at an LSN. The index is kept up with the log.
fn find_or_make(
    log: &mut DbLog,
    index: &mut Index,
    versions: &mut Versions,
    page: u32,
    lsn: u64,
) -> Result<usize, AllocError>
    requires of { AreOfLog index.old versions.old.versions log.old.hardened }
    requires hard { lsn ≤ length log.old.hardened }
    ensures kept { KeepsVersions log.old log.new versions.old versions.new }
    ensures index { IsIndex index.new log.old.hardened }
    ensures page { IfOk result (λ place.
        HasPage versions.new.versions place page lsn log.old.hardened) }
    ensures succeeds { index.old.entered ≡ length log.old.hardened →
        0 < length versions.old.versions →
        count_before page log.old.hardened lsn ≡ 0 → IsOk result }
{
    let hard = log.hard();
    catch_up(log, index, hard)?;
    let image = index.newest_image(page, lsn);
    let place = show(log, versions, page, index.lsns(page), image, lsn)?;
    Ok(place)
}

// Enters the hardened blocks up to an LSN that the index was not made of yet.
fn catch_up(log: &mut DbLog, index: &mut Index, to: u64) -> Result<(), AllocError>
    requires index { IsIndex index.old log.old.hardened }
    requires to { (index.old.entered ≤ to) × (to ≤ length log.old.hardened) }
    ensures log { log.new ≡ log.old }
    ensures index { IsIndex index.new log.old.hardened }
    ensures all { OnOk result (index.new.entered ≡ to) }
    ensures succeeds { index.old.entered ≡ to → IsOk result }
{
    for before in index.entered()..to {
        let block = log.read(before + 1)?;
        index.enter(&block)?;
    }
    Ok(())
}

// How many of the LSNs are not above one. They rise.
fn count_up_to(lsns: &[u64], lsn: u64) -> usize
    requires rising { (i j : ℕ) → i ≤ j → j < length lsns.now →
        slice_index_or lsns.now i 0 ≤ slice_index_or lsns.now j 0 }
    ensures within { result ≤ length lsns.now }
    ensures below { 0 < result → slice_index_or lsns.now (result - 1) 0 ≤ lsn }
    ensures above { result < length lsns.now → lsn < slice_index_or lsns.now result 0 }
{
    lsns.partition_point(|other| *other <= lsn)
}

// Redoes in the version at a place a range of the blocks that change a page, of which these are the LSNs.
fn bring_up(
    log: &mut DbLog,
    versions: &mut Versions,
    place: usize,
    page: u32,
    lsns: &[u64],
    range: Range<usize>,
) -> Result<(), AllocError>
    requires lsns { AreLsnsOf page lsns.now log.old.hardened }
    requires after { IsTrueAfter versions.old.versions place page log.old.hardened range.start }
    requires range { (range.start ≤ range.end) × (range.end ≤ length lsns.now) }
    ensures kept { KeepsVersions log.old log.new versions.old versions.new }
    ensures after { OnOk result
        (IsAfterChanges versions.new.versions place page log.old.hardened range.end) }
    ensures succeeds { range.start ≡ range.end → IsOk result }
{
    for i in range.start..range.end {
        let block = log.read(lsns[i])?;
        versions.redo(place, &block);
    }
    Ok(())
}

// A version of the page at the LSN of an image, or at LSN 0, if the block there is none.
fn begin_at_image(
    log: &mut DbLog,
    versions: &mut Versions,
    page: u32,
    image: u64,
) -> Result<Found, AllocError>
    requires versions { AreOfBlocks versions.old.versions log.old.hardened }
    requires hard { image ≤ length log.old.hardened }
    ensures kept { KeepsVersions log.old log.new versions.old versions.new }
    ensures begun { IfOk result (λ begun. IsUpTo versions.new.versions page image begun) }
    ensures succeeds { image ≡ 0 → 0 < length versions.old.versions → IsOk result }
{
    let place = versions.begin(page)?;
    if image == 0 {
        return Ok(Found { place, lsn: 0 });
    }
    let block = log.read(image)?;
    if !is_image(&block, page) {
        return Ok(Found { place, lsn: 0 });
    }
    versions.redo(place, &block);
    Ok(Found { place, lsn: image })
}

// A version of its own from which the page at an LSN can be made: a copy of the one that was found, or
// one that begins at an image above it.
fn begin(
    log: &mut DbLog,
    versions: &mut Versions,
    page: u32,
    found: Option<Found>,
    image: u64,
    lsn: u64,
) -> Result<Found, AllocError>
    requires versions { AreOfBlocks versions.old.versions log.old.hardened }
    requires image { (image ≤ lsn) × (lsn ≤ length log.old.hardened) }
    requires found { IfSome found (λ it. IsUpTo versions.old.versions page lsn it) }
    ensures kept { KeepsVersions log.old log.new versions.old versions.new }
    ensures begun { IfOk result (λ begun. IsUpTo versions.new.versions page lsn begun) }
    ensures succeeds { image ≡ 0 → 0 < length versions.old.versions → IsOk result }
{
    match found {
        Some(found) if image <= found.lsn => {
            let place = versions.begin_from(found.place)?;
            Ok(Found { place, ..found })
        }
        _ => begin_at_image(log, versions, page, image),
    }
}

// The LSN of the image to begin at: 0 if no block changes the page.
fn image_after(changes: usize, image: u64) -> u64
    ensures within { result ≤ image }
    ensures none { changes ≡ 0 → result ≡ 0 }
{
    if changes == 0 { 0 } else { image }
}

// The place of a version that is the page at an LSN. If the newest at or below it lacks blocks
// that change the page, one of its own is brought up.
fn show(
    log: &mut DbLog,
    versions: &mut Versions,
    page: u32,
    lsns: &[u64],
    image: u64,
    lsn: u64,
) -> Result<usize, AllocError>
    requires versions { AreOfBlocks versions.old.versions log.old.hardened }
    requires lsns { lsns.now ≡ lsns_of page log.old.hardened }
    requires image { (image ≤ lsn) × (lsn ≤ length log.old.hardened) }
    ensures kept { KeepsVersions log.old log.new versions.old versions.new }
    ensures after { IfOk result (λ place. IsAfterChanges versions.new.versions place page
        log.old.hardened (count_before page log.old.hardened lsn)) }
    ensures succeeds { 0 < length versions.old.versions →
        count_before page log.old.hardened lsn ≡ 0 → IsOk result }
{
    let to = count_up_to(lsns, lsn);
    let found = versions.find(page, lsn);
    if let Some(found) = found {
        if count_up_to(lsns, found.lsn) == to {
            return Ok(found.place);
        }
    }
    let begun = begin(log, versions, page, found, image_after(to, image), lsn)?;
    let from = count_up_to(lsns, begun.lsn);
    bring_up(log, versions, begun.place, page, lsns, from..to)?;
    versions.enter(begun.place);
    Ok(begun.place)
}
