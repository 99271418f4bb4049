//! Where threads park, and who wakes them. No promise rests on it: a thread that wakes, for whatever
//! reason, looks at the words of the table again.

ghost use Rattle.std.specs.Prelude.{◌≡◌, vec_len};

use std::alloc::{AllocError, Global};
use std::sync::Wait;
use std::sync::atomic::AtomicU64;
use std::sync::atomic::Ordering::SeqCst;

/// How many parkers the tickets have. Those with the same remainder share one.
const PARKERS: u64 = 64;

/// The word of a parker that nobody parks at.
const UNMARKED: u64 = 0;

// The mark under which the thread with this ticket parks. It is never that of an unmarked parker, and
// no two tickets that are out at the same moment and share a parker have the same.
fn mark_of(ticket: u64) -> u32 {
    (ticket / PARKERS % u64::from(u32::MAX)) as u32 + 1
}

/// A word to park on.
///
/// A thread first announces its mark, then looks once more whether it has to wait, and then parks
/// as long as the word is its mark. A thread that wakes others changes the words of the table first, and one
/// that announces another mark keeps the first one awake. So no wake-up is lost.
#[derive(Drop)]
pub(crate) struct Parker {
    word: AtomicU64,
}

impl Parker {
    pub(crate) const fn new() -> Parker {
        Parker {
            word: AtomicU64::new(UNMARKED),
        }
    }

    pub(crate) fn announce(&self, mark: u32) {
        self.word.store(u64::from(mark), SeqCst);
    }

    /// Parks until it is woken, unless that happened since the announcement.
    pub(crate) fn park(&self, rt: &impl Wait, mark: u32) {
        self.word.park(rt, mark);
    }

    // Whether somebody parks here, or is about to. Then the parker is unmarked again.
    fn take(&self) -> bool {
        self.word.load(SeqCst) != UNMARKED && self.word.swap(UNMARKED, SeqCst) != UNMARKED
    }

    /// Wakes all who park here.
    pub(crate) fn wake_all(&self) {
        if self.take() {
            self.word.wake_all();
        }
    }

    /// Wakes one of those who park here. It announces again, if others are left.
    pub(crate) fn wake_one(&self) {
        if self.take() {
            self.word.wake_one();
        }
    }
}

/// The parkers of those who have a ticket.
#[derive(Drop)]
pub(crate) struct Parkers {
    /// By the remainder of the ticket.
    tickets: Vec<Parker>,
    ghost count: { vec_len tickets ≡ 64 },
}

impl Parkers {
    /// Parkers that nobody parks at.
    pub(crate) fn new(alloc: Global) -> Result<Parkers, AllocError> {
        let mut tickets = Vec::with_capacity(alloc, PARKERS as usize)?;
        while (tickets.len() as u64) < PARKERS {
            tickets.push(Parker::new()).unwrap();
        }
        Ok(Parkers { tickets })
    }

    fn of(&self, ticket: u64) -> &Parker {
        &self.tickets[(ticket % PARKERS) as usize]
    }

    /// Says that a thread with this ticket will park.
    pub(crate) fn announce(&self, ticket: u64) {
        self.of(ticket).announce(mark_of(ticket));
    }

    /// Parks until the ticket is woken.
    pub(crate) fn park(&self, rt: &impl Wait, ticket: u64) {
        self.of(ticket).park(rt, mark_of(ticket));
    }

    /// Wakes the thread that has the ticket.
    pub(crate) fn wake(&self, ticket: u64) {
        self.of(ticket).wake_all();
    }
}
