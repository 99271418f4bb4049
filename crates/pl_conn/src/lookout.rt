//! How a worker waits for its sockets: one of a service's workers polls awake first, the others sleep at once.

use mio::{Events, Poll};
use std::io;
use std::sync::atomic::AtomicU64;
use std::sync::atomic::Ordering::SeqCst;
use std::thread::yield_now;
use std::time::Duration;

/// A poll with this timeout returns at once.
pub(crate) const AT_ONCE: Duration = Duration::ZERO;

/// The place of the one worker of a service that polls awake. So idle polls cost a service one processor at most, and
/// none if the workers have enough to do.
#[derive(Drop)]
pub(crate) struct Lookout {
    taken: AtomicU64,
}

impl Lookout {
    /// A place where nobody is.
    pub(crate) const fn new() -> Lookout {
        Lookout {
            taken: AtomicU64::new(0),
        }
    }

    // Takes the place, if nobody is there, and says whether it did.
    fn takes(&self) -> bool {
        self.taken.swap(1, SeqCst) == 0
    }

    // Leaves the place to others.
    fn leaves(&self) {
        self.taken.store(0, SeqCst);
    }
}

// Polls awake, this often at most, until there is an event. Between two polls other threads may run.
fn poll_awake(poll: &mut Poll, events: &mut Events, idle_polls: u32) -> io::Result<()> {
    for _ in 0..idle_polls {
        poll.poll(events, Some(AT_ONCE))?;
        if !events.is_empty() {
            return Ok(());
        }
        yield_now();
    }
    Ok(())
}

/// Waits for events, however long it takes. It first polls awake, unless another worker does: an event that comes soon
/// costs no wake-up then.
pub(crate) fn wait(
    poll: &mut Poll,
    events: &mut Events,
    lookout: &Lookout,
    idle_polls: u32,
) -> io::Result<()> {
    if idle_polls > 0 && lookout.takes() {
        let polled = poll_awake(poll, events, idle_polls);
        lookout.leaves();
        if polled.is_err() || !events.is_empty() {
            return polled;
        }
    }
    poll.poll(events, None)
}
