//! What the accepting thread has of a worker: where its sockets go, its waker, and how many connections it has.

ghost use Rattle.std.specs.Prelude.{◌≡◌, ◌-◌, ◌^◌, ◌<◌, ◌≤◌};

use crossbeam_channel::{Sender, TrySendError};
use mio::Waker;
use std::net::TcpStream;
use std::sync::atomic::AtomicU64;
use std::sync::atomic::Ordering::SeqCst;
use std::sync::{Arc, Wait};

/// What a worker that has left has closed: more than it was ever given.
const LEFT: u64 = u64::MAX;

/// What a worker and the accepting thread share. A wake is lost if the waker is dropped before it is heard, so each of
/// them keeps it.
#[derive(Drop)]
pub(crate) struct Shared {
    waker: Waker,
    // How many of its connections the worker has closed.
    closed: AtomicU64,
}

impl Shared {
    /// Of a worker that has closed none.
    pub(crate) const fn new(waker: Waker) -> Shared {
        Shared {
            waker,
            closed: AtomicU64::new(0),
        }
    }

    /// Says how many connections are closed.
    pub(crate) fn closes(&self, count: u64) {
        self.closed.store(count, SeqCst);
    }

    /// Says that the worker takes no more connections.
    pub(crate) fn leaves(&self) {
        self.closed.store(LEFT, SeqCst);
    }

    // Makes the worker look for sockets. If the system refuses it, the worker looks at its next event.
    fn wake(&self) {
        let _woken = self.waker.wake();
    }
}

// How many connections a worker has that was given so many, and says that so many are closed. One that has left has more
// than any other.
fn open_of(given: u64, closed: u64) -> u64
    ensures left { closed ≡ 2 ^ 64 - 1 → result ≡ 2 ^ 64 - 1 }
    ensures open { closed < 2 ^ 64 - 1 → closed ≤ given → result ≡ given - closed }
{
    if closed == LEFT {
        return u64::MAX;
    }
    given.saturating_sub(closed)
}

/// What the accepting thread has of a worker.
#[derive(Drop)]
pub(crate) struct Post {
    channel: Sender<TcpStream>,
    // How many connections the worker was given.
    given: u64,
    shared: Arc<Shared>,
}

impl Post {
    /// That of a worker that was given no connection.
    pub(crate) fn new(channel: Sender<TcpStream>, shared: Arc<Shared>) -> Post {
        Post {
            channel,
            given: 0,
            shared,
        }
    }

    /// How many connections the worker has.
    pub(crate) fn open(&self) -> u64 {
        open_of(self.given, self.shared.closed.load(SeqCst))
    }

    // Counts a connection that was sent, of which the worker hears.
    fn gives(&mut self) {
        self.given = self.given.saturating_add(1);
        self.shared.wake();
    }

    /// Hands the socket to the worker, if its channel has room. Else the socket comes back.
    pub(crate) fn offer<R: Wait>(&mut self, rt: &R, socket: TcpStream) -> Option<TcpStream> {
        match self.channel.try_send(rt, socket) {
            Ok(()) => {
                self.gives();
                None
            }
            Err(TrySendError::Full(socket))
            | Err(TrySendError::Disconnected(socket))
            | Err(TrySendError::OutOfMemory(socket)) => Some(socket),
        }
    }

    /// Hands the socket to the worker, once its channel has room. A worker that has left takes none.
    pub(crate) fn send<R: Wait>(&mut self, rt: &R, socket: TcpStream) {
        if self.channel.send(rt, socket).is_ok() {
            self.gives();
        }
    }

    /// No more sockets come, and the worker hears of it.
    pub(crate) fn close(self) {
        let Post {
            channel,
            shared,
            ..
        } = self;
        drop(channel);
        shared.wake();
    }
}
