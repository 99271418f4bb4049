//! Versions of pages, in frames of an arena.

ghost use Rattle.std.specs.Prelude.{◌≡◌, ◌<◌, ◌≤◌, [], length, slice_set, IfOk, IfSome, IsOk, IsSome};
ghost use Rattle.pl_block.specs.Bounds.{page_size};
ghost use Rattle.pl_pages.specs.Kept.{IsAt, StayInPlace, StayTrue, version_at, with_block};
ghost use Rattle.pl_pages.specs.Page.{empty_page};

use crate::changes::{clear, redo_block};
use crate::newest::Newest;
use pl_arena::{FrameId, VersionArena};
use pl_block::Block;
use std::alloc::{AllocError, Global};
use std::collections::BTreeMap;
use std::fmt;
use std::marker::Model;

/// A page as it was at an LSN, and the frame that it lies in.
#[derive(Clone, Copy, Debug, PartialEq, Eq)]
pub(crate) struct Kept {
    pub(crate) page: u32,
    lsn: u64,
    frame: FrameId,
}

/// A version that was found: where it is, and its LSN.
#[derive(Clone, Copy, Debug, PartialEq, Eq)]
pub(crate) struct Found {
    pub(crate) place: usize,
    pub(crate) lsn: u64,
}

/// Versions of pages, each in a frame of its own. Once every frame has one, or there is no memory for more,
/// a new version takes the place and the frame of the oldest.
#[derive(Drop)]
pub(crate) struct Versions {
    arena: VersionArena,
    /// In the order in which they were made, from `oldest` to the end and on from the beginning.
    kept: Vec<Kept>,
    oldest: usize,
    /// The place of each version, by its page and LSN. What it leads to is looked at before it is
    /// used.
    places: BTreeMap<(u32, u64), usize>,
    /// The place of the newest version of most pages, so that most gets need no search.
    newest: Newest,
}

impl Model for Versions {
    ghost use Rattle.pl_pages.specs.Kept.{AreKept, VersionsState, frame_ids, versions_in};
    ghost use Rattle.pl_pages.specs.Codes.{versions_code};

    ghost Value = { VersionsState };

    ghost coded = { versions_code };

    ghost view = { λ v.
        record { versions = versions_in v.arena v.kept.items; chunks = v.arena.max_chunks } };

    ghost invariant = { λ v. AreKept v.arena (frame_ids v.kept.items) v.oldest };
}

impl fmt::Debug for Versions {
    fn fmt<W: fmt::Write>(&self, f: &mut fmt::Formatter<W>) -> fmt::Result {
        let count = self.kept.len();
        write!(f, "{count} versions")
    }
}

impl Versions {
    /// No versions, and room for 64 in each of the chunks. It allocates nothing.
    pub(crate) fn new(alloc: Global, chunks: u32) -> Versions
        requires some { 1 ≤ chunks }
        requires few { chunks ≤ 65536 }
        ensures none { result.versions ≡ [] }
        ensures chunks { result.chunks ≡ chunks }
    {
        Versions {
            arena: VersionArena::new(alloc, chunks),
            kept: Vec::new(alloc),
            oldest: 0,
            places: BTreeMap::new(alloc),
            newest: Newest::new(alloc),
        }
    }

    /// The newest version of the page at or below the LSN.
    pub(crate) fn find(&self, page: u32, lsn: u64) -> Option<Found>
        ensures at { IfSome result (λ found. IsAt self.now.versions found.place page found.lsn) }
        ensures below { IfSome result (λ found. found.lsn ≤ lsn) }
    {
        let found = self.found(self.newest.place(page), page, lsn);
        if found.is_some() {
            return found;
        }
        self.found(self.search(page, lsn), page, lsn)
    }

    // The place of the newest version of the page at or below the LSN, in the order of the LSNs.
    fn search(&self, page: u32, lsn: u64) -> Option<usize> {
        let (_, place) = self.places.range((page, 0)..=(page, lsn)).next_back()?;
        Some(*place)
    }

    // The version at the place, if it is of the page and not above the LSN.
    fn found(&self, place: Option<usize>, page: u32, lsn: u64) -> Option<Found>
        ensures at { IfSome result (λ found. IsAt self.now.versions found.place page found.lsn) }
        ensures below { IfSome result (λ found. found.lsn ≤ lsn) }
    {
        let place = place?;
        let version = *self.kept.get(place)?;
        if version.page == page && version.lsn <= lsn {
            Some(Found {
                place,
                lsn: version.lsn,
            })
        } else {
            None
        }
    }

    /// The bytes of the version at a place.
    pub(crate) fn bytes(&self, place: usize) -> &[u8]
        requires within { place < length self.now.versions }
        ensures value { result.now ≡ (version_at self.now.versions place).bytes }
        ensures len { length result.now ≡ page_size }
    {
        let version = self.kept[place];
        self.arena.bytes(version.frame)
    }

    /// Makes a version of the page at LSN 0.
    pub(crate) fn begin(&mut self, page: u32) -> Result<usize, AllocError>
        ensures truth { StayTrue self.old.versions self.new.versions }
        ensures chunks { self.new.chunks ≡ self.old.chunks }
        ensures at { IfOk result (λ place. IsAt self.new.versions place page 0) }
        ensures succeeds { 0 < length self.old.versions → IsOk result }
    {
        let place = self.make_room()?;
        self.put_blank(place, page);
        Ok(place)
    }

    /// Makes a copy of a version.
    pub(crate) fn begin_from(&mut self, from: usize) -> Result<usize, AllocError>
        requires within { from < length self.old.versions }
        ensures truth { StayTrue self.old.versions self.new.versions }
        ensures chunks { self.new.chunks ≡ self.old.chunks }
        ensures at { IfOk result (λ place. IsAt self.new.versions place
            (version_at self.old.versions from).page (version_at self.old.versions from).lsn) }
        ensures succeeds { IsOk result }
    {
        let place = self.make_room()?;
        self.copy(from, place);
        Ok(place)
    }

    /// Makes the changes of a block in the version at a place, which becomes one at its LSN.
    pub(crate) fn redo(&mut self, place: usize, block: &Block)
        requires within { place < length self.old.versions }
        ensures versions { self.new.versions ≡ with_block self.old.versions place block.now }
        ensures chunks { self.new.chunks ≡ self.old.chunks }
    {
        let version = self.kept[place];
        redo_block(block, version.page, self.arena.bytes_mut(version.frame));
        self.kept[place] = Kept {
            lsn: block.lsn(),
            ..version
        };
    }

    /// Lets the version at a place be found. If an allocation fails, it is not found.
    pub(crate) fn enter(&mut self, place: usize)
        requires within { place < length self.old.versions }
        ensures same { self.new ≡ self.old }
    {
        let version = self.kept[place];
        if self
            .places
            .insert((version.page, version.lsn), place)
            .is_err()
        {
            return;
        }
        self.newest.grow(&self.kept);
        self.note_newest(version.page);
    }

    // Notes where the newest version of the page is.
    fn note_newest(&mut self, page: u32)
        ensures same { self.new ≡ self.old }
    {
        if let Some(place) = self.search(page, u64::MAX) {
            self.newest.put(page, place);
        }
    }

    // A place whose version may be replaced: a new one, or else that of the oldest version.
    fn make_room(&mut self) -> Result<usize, AllocError>
        ensures truth { StayTrue self.old.versions self.new.versions }
        ensures stay { StayInPlace self.old.versions self.new.versions }
        ensures chunks { self.new.chunks ≡ self.old.chunks }
        ensures within { IfOk result (λ place. place < length self.new.versions) }
        ensures succeeds { 0 < length self.old.versions → IsOk result }
    {
        match self.add_place() {
            Ok(place) => Ok(place),
            Err(AllocError) => self.free_oldest().ok_or(AllocError),
        }
    }

    // A place with a frame of its own. An error if every frame has a version, or an allocation failed.
    fn add_place(&mut self) -> Result<usize, AllocError>
        ensures truth { StayTrue self.old.versions self.new.versions }
        ensures stay { StayInPlace self.old.versions self.new.versions }
        ensures chunks { self.new.chunks ≡ self.old.chunks }
        ensures within { IfOk result (λ place. place < length self.new.versions) }
    {
        self.kept.reserve(1)?;
        match self.arena.take() {
            Ok(frame) => {
                let place = self.kept.len();
                self.kept.push(Kept {
                    page: 0,
                    lsn: 0,
                    frame,
                })?;
                Ok(place)
            }
            Err(_) => Err(AllocError),
        }
    }

    // The place of the oldest version, which is found no more. `None` if there is no version.
    fn free_oldest(&mut self) -> Option<usize>
        ensures same { self.new ≡ self.old }
        ensures within { IfSome result (λ place. place < length self.new.versions) }
        ensures some { 0 < length self.old.versions → IsSome result }
    {
        let place = self.oldest;
        let version = *self.kept.get(place)?;
        self.places.remove(&(version.page, version.lsn));
        self.note_newest(version.page);
        self.oldest = (place + 1) % self.kept.len();
        Some(place)
    }

    // Puts the page at LSN 0 into a place.
    fn put_blank(&mut self, place: usize, page: u32)
        requires within { place < length self.old.versions }
        ensures versions { self.new.versions ≡
            slice_set self.old.versions place
            (record { page = page; lsn = 0; bytes = empty_page }) }
        ensures chunks { self.new.chunks ≡ self.old.chunks }
    {
        let frame = self.kept[place].frame;
        clear(self.arena.bytes_mut(frame));
        self.kept[place] = Kept {
            page,
            lsn: 0,
            frame,
        };
    }

    // Copies the version at a place to another place, or leaves it where it is.
    fn copy(&mut self, from: usize, to: usize)
        requires from { from < length self.old.versions }
        requires to { to < length self.old.versions }
        ensures versions { self.new.versions ≡
            slice_set self.old.versions to (version_at self.old.versions from) }
        ensures chunks { self.new.chunks ≡ self.old.chunks }
    {
        let version = self.kept[from];
        let frame = self.kept[to].frame;
        self.arena.copy(version.frame, frame);
        self.kept[to] = Kept { frame, ..version };
    }
}
