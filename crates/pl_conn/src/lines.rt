//! The connections of a worker, and the turns of those that have something for it.

ghost use Rattle.std.specs.Prelude.{◌≡◌, ◌+◌, ◌-◌, ◌^◌, ◌<◌, ◌∷◌, ◌++◌, ◌↔◌, [], IfNone, IfSome, IsTrue, None, Some, false};
ghost use Rattle.slab.specs.Slab.{Updates, get, slab_len};
ghost use Rattle.pl_conn.specs.Lines.{ClosesIf, HasTurn, IsIdle, IsIdleAt, Keeps, Settles, StaysClosing, TakesTurn, at_socket};
ghost use Rattle.pl_conn.specs.Resting.{Rests};
ghost use Rattle.pl_conn.specs.Serving.{Reaches};

use crate::cause::Cause;
use crate::conversation::{Conversation, Rest, Room};
use mio::event::Event;
use mio::{Events, Interest, Poll, Token};
use pl_wire::Gate;
use slab::Slab;
use std::alloc::Global;
use std::collections::VecDeque;
use std::marker::Model;
use std::net::TcpStream;

/// For how many connections a worker has memory from its start.
const LINES: usize = 1_024;

/// One connection of a worker.
#[derive(Drop)]
pub(crate) struct Line {
    socket: mio::net::TcpStream,
    talk: Conversation,
    // Whether its place is among those that are due.
    is_due: bool,
    // Whether the peer will send no more: a short read is then no sign that nothing is left.
    is_closing: bool,
}

/// The connections of a worker, by their places, and the places of those whose turn is due, each once.
#[derive(Drop)]
pub(crate) struct Lines {
    alloc: Global,
    items: Slab<Line>,
    due: VecDeque<usize>,
    // How many sockets the worker took.
    taken: u64,
    // How many conversations ended in a fault.
    faults: u64,
}

impl Model for Lines {
    ghost use Rattle.pl_conn.specs.Lines.{AreListed, Roll};

    ghost Value = { Roll };

    ghost view = { λ l.
        record { lines = l.items; due = l.due.items; taken = l.taken; faults = l.faults } };

    // One that is due is listed once, and one that is closed is not.
    ghost invariant = { λ l. AreListed l.items l.due.items };
}

// A connection of this socket, which does not wait from now on. `None` if the system refuses that.
fn line_of(alloc: Global, socket: TcpStream) -> Option<Line>
    ensures idle { IfSome result (λ line. line.is_due ≡ false) }
{
    // Small replies are not held back if the system lets that be set.
    let _is_set = socket.set_nodelay(true).is_ok();
    if socket.set_nonblocking(true).is_err() {
        return None;
    }
    Some(Line {
        socket: mio::net::TcpStream::from_std(socket),
        talk: Conversation::new(alloc),
        is_due: false,
        is_closing: false,
    })
}

// Lets the poll report the connection. Returns whether it will.
fn register(items: &mut Slab<Line>, poll: &Poll, place: usize) -> bool
    ensures value { Keeps items.old place items.new StaysClosing }
{
    let Some(line) = items.get_mut(place) else {
        return false;
    };
    let interest = Interest::READABLE | Interest::WRITABLE;
    poll.registry()
        .register(&mut line.socket, Token(place), interest)
        .is_ok()
}

// Notes whether the turn of a connection is due.
fn mark(items: &mut Slab<Line>, place: usize, is_due: bool)
    ensures value { (line : Line) → get items.old place ≡ Some line
        → Updates items.old items.new place (Some (record line { is_due = is_due })) }
{
    if let Some(line) = items.get_mut(place) {
        line.is_due = is_due;
    }
}

// Notes whether the peer sends no more. Returns whether the event is one for a turn now: of a connection that is not due in
// any case.
fn is_for_turn(items: &mut Slab<Line>, place: usize, is_closed: bool) -> bool
    ensures value { Keeps items.old place items.new (ClosesIf is_closed) }
    ensures none { get items.old place ≡ None → items.new ≡ items.old }
    ensures idle { IsTrue result → IsIdleAt items.new place }
{
    let Some(line) = items.get_mut(place) else {
        return false;
    };
    line.is_closing |= is_closed;
    !line.is_due
}

// One turn of a connection.
#[tactic(auto, using(crate::proofs::Turning::by_rests))]
fn turn<G: Gate>(
    line: &mut Line,
    gate: &G,
    pass: &mut G::Pass,
    room: &mut Room,
) -> Result<Rest, Cause>
    requires own { G.owns gate.now pass.old }
    ensures own { G.owns gate.now pass.new }
    ensures reaches { Reaches (G.calls gate.now) pass.old pass.new }
    // Its own conversation had the turn, and this is what the turn came to.
    ensures value { Rests (G.calls gate.now) (at_socket pass.old) line.old.talk
        (at_socket pass.new) line.new.talk result }
    ensures same { (line.new.is_due ≡ line.old.is_due)
        × (line.new.is_closing ≡ line.old.is_closing) }
{
    let mut reader = &line.socket;
    let mut writer = &line.socket;
    line.talk.resume(&mut reader, &mut writer, gate, pass, room)
}

// One turn of the connection at this place.
#[tactic(auto, using(crate::proofs::Reaching::reaches_self))]
fn turn_of<G: Gate>(
    items: &mut Slab<Line>,
    place: usize,
    gate: &G,
    pass: &mut G::Pass,
    room: &mut Room,
) -> Result<Rest, Cause>
    requires own { G.owns gate.now pass.old }
    ensures own { G.owns gate.now pass.new }
    ensures reaches { Reaches (G.calls gate.now) pass.old pass.new }
    ensures value { Keeps items.old place items.new
        (HasTurn (G.calls gate.now) pass.old pass.new result) }
    ensures none { get items.old place ≡ None → items.new ≡ items.old }
{
    let Some(line) = items.get_mut(place) else {
        return Ok(Rest::Over);
    };
    turn(line, gate, pass, room)
}

impl Lines {
    /// No connections, and the room of some.
    pub(crate) fn new(alloc: Global) -> Option<Lines>
        ensures due { IfSome result (λ lines. lines.due ≡ []) }
        ensures taken { IfSome result (λ lines. (lines.taken ≡ 0) × (lines.faults ≡ 0)) }
    {
        Some(Lines {
            alloc,
            items: Slab::with_capacity(alloc, LINES).ok()?,
            due: VecDeque::with_capacity(alloc, LINES).ok()?,
            taken: 0,
            faults: 0,
        })
    }

    /// Whether there is no connection.
    pub(crate) fn is_empty(&self) -> bool
        ensures value { IsTrue result ↔ (slab_len self.now.lines ≡ 0) }
    {
        self.items.is_empty()
    }

    /// Whether the turn of one is due.
    pub(crate) fn has_due(&self) -> bool
        ensures value { result ≡ false ↔ (self.now.due ≡ []) }
    {
        !self.due.is_empty()
    }

    /// How many of the sockets that the worker took are closed.
    pub(crate) fn closed(&self) -> u64
        ensures value { result ≡ self.now.taken - slab_len self.now.lines }
    {
        self.taken.saturating_sub(self.items.len() as u64)
    }

    /// How many conversations ended in a fault.
    pub(crate) fn faults(&self) -> u64
        ensures value { result ≡ self.now.faults }
    {
        self.faults
    }

    // Adds a connection. `None` if there is no memory.
    fn add(&mut self, line: Line) -> Option<usize>
        requires idle { line.is_due ≡ false }
        ensures open { IfSome result (λ place. IsIdle self.new place) }
        ensures due { self.new.due ≡ self.old.due }
        ensures taken { self.new.taken ≡ self.old.taken }
    {
        let Ok(place) = self.items.insert(line) else {
            return None;
        };
        Some(place)
    }

    // Closes a connection whose turn is not due.
    fn close(&mut self, place: usize)
        requires idle { IsIdle self.old place }
        ensures gone { get self.new.lines place ≡ None }
        ensures count { slab_len self.new.lines + 1 ≡ slab_len self.old.lines }
        ensures due { self.new.due ≡ self.old.due }
        ensures taken { self.new.taken ≡ self.old.taken }
        ensures faults { self.new.faults ≡ self.old.faults }
    {
        self.items.try_remove(place);
    }

    /// Takes a socket. It is closed if there is no memory for it, or the system refuses it.
    pub(crate) fn take(&mut self, poll: &Poll, socket: TcpStream)
        ensures taken { self.old.taken < 2 ^ 64 - 1 → self.new.taken ≡ self.old.taken + 1 }
        ensures due { self.new.due ≡ self.old.due }
    {
        self.taken = self.taken.saturating_add(1);
        let Some(line) = line_of(self.alloc, socket) else {
            return;
        };
        let Some(place) = self.add(line) else {
            return;
        };
        if !register(&mut self.items, poll, place) {
            self.close(place);
        }
    }

    // Takes the next place whose turn is due.
    fn next_due(&mut self) -> Option<usize>
        ensures first { IfSome result (λ place. self.old.due ≡ place ∷ self.new.due) }
        ensures idle { IfSome result (λ place. IsIdle self.new place) }
        ensures none { IfNone result (self.old.due ≡ []) }
        ensures taken { self.new.taken ≡ self.old.taken }
    {
        let place = self.due.pop_front()?;
        mark(&mut self.items, place, false);
        Some(place)
    }

    // Lists a connection whose turn is due. Returns whether there was room for it.
    fn list(&mut self, place: usize) -> bool
        requires idle { IsIdle self.old place }
        ensures due { IsTrue result → self.new.due ≡ self.old.due ++ place ∷ [] }
        ensures err { result ≡ false → self.new ≡ self.old }
        ensures taken { self.new.taken ≡ self.old.taken }
    {
        if self.due.push_back(place).is_err() {
            return false;
        }
        mark(&mut self.items, place, true);
        true
    }

    // Whether the peer of this connection sends no more.
    fn is_closing(&self, place: usize) -> bool
        ensures value { (line : Line) → get self.now.lines place ≡ Some line
            → result ≡ line.is_closing }
    {
        match self.items.get(place) {
            Some(line) => line.is_closing,
            None => false,
        }
    }

    // Notes how the turn of a connection ended: whether another is due, or it is closed.
    fn settle(&mut self, place: usize, end: Result<Rest, Cause>)
        requires idle { IsIdle self.old place }
        ensures value { Settles self.old place end self.new }
    {
        match end {
            Ok(Rest::Output) => {}
            Ok(Rest::Input) if !self.is_closing(place) => {}
            Ok(Rest::Input) | Ok(Rest::Again) => {
                if !self.list(place) {
                    self.close(place);
                }
            }
            Ok(Rest::Over) => self.close(place),
            Err(_) => {
                self.faults = self.faults.saturating_add(1);
                self.close(place);
            }
        }
    }

    // The turn of the connection at this place.
    fn turn_at<G: Gate>(&mut self, place: usize, gate: &G, pass: &mut G::Pass, room: &mut Room)
        requires own { G.owns gate.now pass.old }
        requires idle { IsIdle self.old place }
        ensures own { G.owns gate.now pass.new }
        ensures reaches { Reaches (G.calls gate.now) pass.old pass.new }
        ensures value { TakesTurn (G.calls gate.now) pass.old self.old place pass.new self.new }
    {
        let end = turn_of(&mut self.items, place, gate, pass, room);
        self.settle(place, end);
    }

    // A turn for the connection of an event, unless its turn is due in any case.
    #[tactic(auto, using(crate::proofs::Reaching::reaches_self))]
    fn turn_event<G: Gate>(&mut self, event: &Event, gate: &G, pass: &mut G::Pass, room: &mut Room)
        requires own { G.owns gate.now pass.old }
        ensures own { G.owns gate.now pass.new }
        ensures reaches { Reaches (G.calls gate.now) pass.old pass.new }
    {
        let place = event.token().0;
        if is_for_turn(&mut self.items, place, event.is_read_closed()) {
            self.turn_at(place, gate, pass, room);
        }
    }

    /// A turn for each connection of which there is an event, unless its turn is due in any case.
    #[tactic(auto, using(crate::proofs::Reaching::reaches_self, crate::proofs::Reaching::reaches_more))]
    pub(crate) fn turn_ready<G: Gate>(
        &mut self,
        events: &Events,
        gate: &G,
        pass: &mut G::Pass,
        room: &mut Room,
    )
        requires own { G.owns gate.now pass.old }
        ensures own { G.owns gate.now pass.new }
        ensures reaches { Reaches (G.calls gate.now) pass.old pass.new }
    {
        for event in events.iter() {
            self.turn_event(event, gate, pass, room);
        }
    }

    /// A turn for each connection that is due, once.
    #[tactic(auto, using(crate::proofs::Reaching::reaches_self, crate::proofs::Reaching::reaches_more))]
    pub(crate) fn turn_due<G: Gate>(&mut self, gate: &G, pass: &mut G::Pass, room: &mut Room)
        requires own { G.owns gate.now pass.old }
        ensures own { G.owns gate.now pass.new }
        ensures reaches { Reaches (G.calls gate.now) pass.old pass.new }
    {
        for _ in 0..self.due.len() {
            let Some(place) = self.next_due() else {
                return;
            };
            self.turn_at(place, gate, pass, room);
        }
    }
}
