//! A worker: the connections that it was given, each in its turn.

ghost use Rattle.pl_conn.specs.Serving.{Reaches};

use crate::conversation::Room;
use crate::lines::Lines;
use crate::lookout::{AT_ONCE, Lookout, wait};
use crate::post::{Post, Shared};
use crate::terms::Terms;
use crossbeam_channel::{Receiver, TryRecvError};
use mio::{Events, Poll, Token, Waker};
use pl_wire::Gate;
use std::alloc::Global;
use std::net::{Net, TcpStream};
use std::sync::{Arc, Wait};

/// The token of a worker's waker. Those of its connections are their places.
const WAKE: Token = Token(usize::MAX);

/// How many events one look at the sockets brings at most.
const EVENTS: usize = 256;

/// How many accepted sockets wait for one worker at most.
const WAITING: usize = 64;

/// What a worker shares with others: the accepting thread, and the workers of its service.
#[derive(Drop)]
struct Place {
    sockets: Receiver<TcpStream>,
    shared: Arc<Shared>,
    // Where one of the workers polls awake, and how often it does before it sleeps.
    lookout: Arc<Lookout>,
    idle_polls: u32,
}

/// What a worker works with. All of it is there before its thread is started.
#[derive(Drop)]
pub(crate) struct Worker {
    poll: Poll,
    events: Events,
    lines: Lines,
    room: Room,
    place: Place,
}

/// What a worker leaves.
#[derive(Drop)]
pub(crate) struct Outcome<P> {
    /// Its pass, after the calls of its connections.
    pub(crate) pass: P,
    /// How many conversations ended in a fault.
    pub(crate) faults: u64,
}

// Takes in the sockets that were accepted for the worker. Returns whether more may come.
fn take_new<R: Wait>(rt: &R, place: &Place, poll: &Poll, lines: &mut Lines) -> bool {
    for _ in rt.forever() {
        match place.sockets.try_recv(rt) {
            Ok(socket) => lines.take(poll, socket),
            Err(TryRecvError::Empty) => return true,
            Err(TryRecvError::Disconnected) => return false,
        }
    }
    unreachable!()
}

impl Worker {
    // A worker at this place, without a connection, with all the memory that it needs.
    fn at(alloc: Global, poll: Poll, place: Place) -> Option<Worker> {
        Some(Worker {
            poll,
            events: Events::with_capacity(alloc, EVENTS).ok()?,
            lines: Lines::new(alloc)?,
            room: Room::new(alloc).ok()?,
            place,
        })
    }

    /// A worker of a service, with all that it needs, and what the accepting thread has of it. `None` if there was no memory,
    /// or no descriptor.
    pub(crate) fn new<R: Net, W>(
        rt: &R,
        terms: &Terms<W>,
        lookout: &Arc<Lookout>,
    ) -> Option<(Worker, Post)> {
        let poll = Poll::new(rt).ok()?;
        let waker = Waker::new(poll.registry(), WAKE).ok()?;
        let (channel, sockets) = crossbeam_channel::bounded(terms.alloc, WAITING).ok()?;
        let shared = Arc::new(terms.alloc, Shared::new(waker)).ok()?;
        let post = Post::new(channel, Arc::try_clone(&shared).ok()?);
        let place = Place {
            sockets,
            shared,
            lookout: Arc::try_clone(lookout).ok()?,
            idle_polls: terms.idle_polls,
        };
        Some((Worker::at(terms.alloc, poll, place)?, post))
    }

    // One round: the connections that have something for it, then those that are due, then new ones. Returns whether one is
    // left, or may come. A wait that fails ends the worker: its connections are closed.
    fn round<R: Wait, G: Gate>(&mut self, rt: &R, gate: &G, pass: &mut G::Pass) -> bool
        requires own { G.owns gate.now pass.old }
        ensures own { G.owns gate.now pass.new }
        ensures reaches { Reaches (G.calls gate.now) pass.old pass.new }
    {
        let Worker {
            poll,
            events,
            lines,
            room,
            place,
        } = self;
        let polled = if lines.has_due() {
            poll.poll(events, Some(AT_ONCE))
        } else {
            wait(poll, events, &place.lookout, place.idle_polls)
        };
        if polled.is_err() {
            place.shared.leaves();
            return false;
        }
        lines.turn_ready(events, gate, pass, room);
        lines.turn_due(gate, pass, room);
        let is_open = take_new(rt, place, poll, lines);
        place.shared.closes(lines.closed());
        is_open || !lines.is_empty()
    }

    // Rounds, until no connection is left, and no more can come.
    #[tactic(auto, using(crate::proofs::Reaching::reaches_self, crate::proofs::Reaching::reaches_more))]
    fn rounds<R: Wait, G: Gate>(&mut self, rt: &R, gate: &G, pass: &mut G::Pass)
        requires own { G.owns gate.now pass.old }
        ensures own { G.owns gate.now pass.new }
        ensures reaches { Reaches (G.calls gate.now) pass.old pass.new }
    {
        for _ in rt.forever() {
            if !self.round(rt, gate, pass) {
                return;
            }
        }
    }

    /// Serves the sockets that come, all of them at the same time, until none is left and no more can come.
    pub(crate) fn work<R: Wait, G: Gate>(self, rt: &R, gate: &G, pass: G::Pass) -> Outcome<G::Pass>
        requires own { G.owns gate.now pass }
        ensures own { G.owns gate.now result.pass }
        ensures reaches { Reaches (G.calls gate.now) pass result.pass }
    {
        let mut worker = self;
        let mut now = pass;
        worker.rounds(rt, gate, &mut now);
        Outcome {
            pass: now,
            faults: worker.lines.faults(),
        }
    }
}
