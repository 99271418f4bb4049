//! Where the newest version of a page is.

use crate::versions::Kept;
use std::alloc::Global;

// The place of no version.
const NOWHERE: usize = usize::MAX;

/// The place of the newest version of most pages. That of a page is at the page's number modulo
/// the length, a power of two that grows with the versions, unless another page's is there.
///
/// What it leads to is looked at before it is used, since the version of another page may have taken
/// the place.
#[derive(Drop)]
pub(crate) struct Newest {
    places: Vec<usize>,
}

impl Newest {
    /// No place is known. It allocates nothing.
    pub(crate) fn new(alloc: Global) -> Newest {
        Newest {
            places: Vec::new(alloc),
        }
    }

    /// The place of the newest version of the page, or another page's.
    pub(crate) fn place(&self, page: u32) -> Option<usize> {
        let slot = self.slot(page)?;
        self.places.get(slot).copied()
    }

    /// Notes the place of the newest version of the page, if there is a slot for it.
    pub(crate) fn put(&mut self, page: u32, place: usize) {
        let Some(slot) = self.slot(page) else {
            return;
        };
        if let Some(noted) = self.places.get_mut(slot) {
            *noted = place;
        }
    }

    /// Makes a slot for each version. If memory lacks, there stay as few as there are.
    pub(crate) fn grow(&mut self, kept: &[Kept]) {
        let len = self.places.len();
        if len >= kept.len() {
            return;
        }
        let more = len.saturating_mul(2).max(64);
        if self.places.resize(more, NOWHERE).is_err() {
            return;
        }
        for slot in 0..len {
            self.move_to_its_slot(slot, kept);
        }
    }

    // Moves what is in the slot to the slot of its page, which is another for every second page
    // once there are twice as many.
    fn move_to_its_slot(&mut self, slot: usize, kept: &[Kept]) {
        let Some(place) = self.places.get(slot).copied() else {
            return;
        };
        if let Some(version) = kept.get(place) {
            self.put(version.page, place);
        }
    }

    fn slot(&self, page: u32) -> Option<usize> {
        let mask = self.places.len().checked_sub(1)?;
        Some(page as usize & mask)
    }
}
