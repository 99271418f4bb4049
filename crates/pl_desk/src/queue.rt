//! The queue of a desk, where threads wait that have no ticket yet. No promise rests on it: a thread
//! that has entered draws a ticket and waits until it is served.

ghost use Rattle.std.specs.Prelude.{◌≡◌};

use crate::parkers::Parker;
use crate::steps::{DeskShared, NEXT, SERVING};
use std::sync::Wait;
use std::sync::atomic::AtomicU64;
use std::sync::atomic::Ordering::SeqCst;
use std::time::Duration;
use std::{hint, thread};

/// How often a thread tries to enter before it queues.
const SPINS: u32 = 230;

/// From which spin on it lets other threads run in between: the one inside may have lost its processor.
const YIELDS_FROM: u32 = 30;

/// How many times the processor pauses between two spins, if it does not let others run.
const PAUSES: u32 = 4;

/// How many microseconds the head of the queue parks at most, if somebody is inside when it becomes the head.
const PARK_MICROS: u64 = 50;

/// That nobody is inside, or the head of the queue.
const VACANT: u64 = 0;

/// That somebody is.
const TAKEN: u32 = 1;

/// The mark of those behind the head of the queue.
const QUEUED: u32 = 1;

// Whether no ticket is out.
fn is_free(shared: &DeskShared) -> bool
    requires shared { shared.now.table_id.words ≡ 3 }
{
    shared.peek(NEXT) == shared.peek(SERVING)
}

// Lets the processor pause.
fn pause() {
    for _ in 0..PAUSES {
        hint::spin_loop();
    }
}

/// Who may draw a ticket, and the queue of those who wait for that.
///
/// One thread is inside at a time. One that finds another there spins for a moment and enters as soon as
/// nobody is inside, whoever came first: a thread that runs does not wait for one that has lost its processor.
/// Then it queues. The head of the queue parks until somebody leaves, and for a while at most. Then it
/// enters, even if somebody is inside again, and waits for its ticket alone. All others park until the head
/// has entered, which wakes one of them. So whoever leaves wakes one thread at most, and a queue of many is
/// gone soon after one that had lost its processor leaves.
#[derive(Drop)]
pub(crate) struct Queue {
    inside: AtomicU64,
    head: AtomicU64,
    others: Parker,
}

impl Queue {
    /// A queue with nobody inside or waiting.
    pub(crate) const fn new() -> Queue {
        Queue {
            inside: AtomicU64::new(VACANT),
            head: AtomicU64::new(VACANT),
            others: Parker::new(),
        }
    }

    // Enters if nobody is inside and no ticket is out, and says whether it did.
    fn try_enter(&self, shared: &DeskShared) -> bool
        requires shared { shared.now.table_id.words ≡ 3 }
    {
        self.inside.load(SeqCst) == VACANT
            && is_free(shared)
            && self.inside.swap(u64::from(TAKEN), SeqCst) == VACANT
    }

    // Tries to enter again and again for a moment, and says whether it did.
    fn spin(&self, shared: &DeskShared) -> bool
        requires shared { shared.now.table_id.words ≡ 3 }
    {
        for spin in 0..SPINS {
            if spin < YIELDS_FROM {
                pause();
            } else {
                thread::yield_now();
            }
            if self.try_enter(shared) {
                return true;
            }
        }
        false
    }

    /// Returns at once if nobody is inside, else soon after, or when the caller was the head of the queue.
    pub(crate) fn enter(&self, rt: &impl Wait, shared: &DeskShared)
        requires shared { shared.now.table_id.words ≡ 3 }
    {
        if !self.try_enter(shared) && !self.spin(shared) {
            self.wait(rt, shared);
        }
    }

    /// Says that the caller has passed its turn on, and wakes the head of the queue, if there is one.
    pub(crate) fn leave(&self) {
        self.inside.store(VACANT, SeqCst);
        if self.head.load(SeqCst) != VACANT {
            self.head.wake_one();
        }
    }

    // Waits in the queue.
    fn wait(&self, rt: &impl Wait, shared: &DeskShared)
        requires shared { shared.now.table_id.words ≡ 3 }
    {
        for _ in rt.forever() {
            // Each announces, since the head wakes one alone, and whoever is woken finds the parker unmarked.
            self.others.announce(QUEUED);
            if self.head.swap(u64::from(TAKEN), SeqCst) == VACANT {
                if !self.try_enter(shared) {
                    let most = Duration::from_micros(PARK_MICROS);
                    self.head.park_timeout(rt, TAKEN, most);
                    self.inside.store(u64::from(TAKEN), SeqCst);
                }
                self.head.store(VACANT, SeqCst);
                return self.others.wake_one();
            }
            self.others.park(rt, QUEUED);
        }
    }
}
