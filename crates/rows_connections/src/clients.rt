//! Clients that come one after the other, and one that asks again and again, over the desk of one database.

ghost use Rattle.std.specs.List.{All};
ghost use Rattle.pl_conn.specs.Desks.{ArePassesOf};

use crate::connections::{connect, serve_while, stop_of};
use crate::conversations::{FRAMES, REPLIES, REPLY_ENDS, dbs_of};
use crate::memory::may_be_refused;
use crate::talking::TURNS;
use pl_conn::{Desks, Passes, Solo, SoloPass, Stop as Stopped, serve};
use std::alloc::Global;
use std::io::{Read, Write};
use std::net::{Net, SocketAddr, TcpListener, TcpStream};
use std::sync::Wait;
use std::thread::Threads;
use transcripts::transcript::Stop;

/// What a client writes at once and what it reads then: from which byte of the stored run to which, and from
/// which of its replies, from 0, up to which.
type Part = ((usize, usize), (usize, usize));

/// Clients that come one after the other, and how many of their conversations end in a fault.
type Clients = ([Part; 2], u64);

/// The first client writes three frames, the second the last one; or ten bytes of it; or the first
/// writes ten bytes, and the second the whole run.
const CLIENTS: [Clients; 3] = [
    ([((0, 160), (0, 3)), ((160, 208), (3, 4))], 0),
    ([((0, 160), (0, 3)), ((160, 170), (4, 4))], 1),
    ([((0, 10), (0, 0)), ((0, 208), (0, 4))], 1),
];

/// The frames of the stored run, each with its reply.
const TURNS_OF_RUN: [Part; 4] = [
    ((0, 59), (0, 1)),
    ((59, 118), (1, 2)),
    ((118, 160), (2, 3)),
    ((160, 208), (3, 4)),
];

/// The last frame of the run, with its reply.
const PULL: Part = ((160, 208), (3, 4));

// The reply of this number to the stored run.
fn reply_of(number: usize) -> Option<&'static [u8]> {
    let first = match number.checked_sub(1) {
        Some(before) => *REPLY_ENDS.get(before)?,
        None => 0,
    };
    REPLIES.get(first..*REPLY_ENDS.get(number)?)
}

/// The reply that memory was refused.
const NO_MEMORY: [u8; 5] = [0, 0, 0, 1, 6];

// Reads the next reply, with its length before it, into the front of the bytes.
fn next_reply<'a>(stream: &mut TcpStream, bytes: &'a mut [u8; 64]) -> Result<&'a [u8], Stop> {
    let (head, body) = bytes.split_at_mut(4);
    stream.read_exact(head).map_err(stop_of)?;
    let mut length = [0; 4];
    length.copy_from_slice(head);
    let len = u32::from_be_bytes(length) as usize;
    stream
        .read_exact(body.get_mut(..len).ok_or(Stop::Changed)?)
        .map_err(stop_of)?;
    bytes
        .get(..4_usize.saturating_add(len))
        .ok_or(Stop::Changed)
}

// Reads these replies, each of which has to be that of the run, up to one that shows a refusal: its number. Those after
// it are read too.
fn first_refused(stream: &mut TcpStream, replies: (usize, usize)) -> Result<Option<usize>, Stop> {
    let (first, end) = replies;
    let mut refused = None;
    for number in first..end {
        let mut bytes = [0; 64];
        let reply = next_reply(stream, &mut bytes)?;
        if refused.is_none() && reply == NO_MEMORY.as_slice() {
            refused = Some(number);
        } else if refused.is_none() && Some(reply) != reply_of(number) {
            return Err(Stop::Changed);
        }
    }
    Ok(refused)
}

// Writes some of the run and reads its replies.
fn ask_once(stream: &mut TcpStream, part: Part) -> Result<Option<usize>, Stop> {
    let ((from, to), replies) = part;
    let frames = FRAMES.get(from..to).ok_or(Stop::Unread)?;
    stream.write_all(frames).map_err(stop_of)?;
    first_refused(stream, replies)
}

// The same, and after a refusal once more: the pull alone if it was refused, and otherwise all, since nothing is
// hardened without the writes and the report.
fn ask_on(stream: &mut TcpStream, part: Part, refused: &mut bool) -> Result<(), Stop> {
    let Some(number) = ask_once(stream, part)? else {
        return Ok(());
    };
    if *refused {
        return Err(Stop::Changed);
    }
    *refused = true;
    let again = if number == 3 { PULL } else { part };
    match ask_once(stream, again)? {
        Some(_) => Err(Stop::Changed),
        None => Ok(()),
    }
}

// One client: it writes its part, reads the replies and closes.
fn ask_one<R: Net<Stream = TcpStream>>(
    rt: &R,
    addr: SocketAddr,
    part: Part,
    refused: &mut bool,
) -> Result<(), Stop> {
    let mut stream = connect(rt, addr).map_err(stop_of)?;
    ask_on(&mut stream, part, refused)
}

// The two clients, one after the other. Each connects, whatever came of the one before, so that the
// service comes to its end.
fn ask_in_turn<R: Net<Stream = TcpStream>>(
    rt: &R,
    addr: SocketAddr,
    clients: [Part; 2],
    refused: &mut bool,
) -> Result<(), Stop> {
    let mut end = Ok(());
    for part in clients {
        let told = ask_one(rt, addr, part, refused);
        if end.is_ok() {
            end = told;
        }
    }
    end
}

// One client that reads each reply before it asks again, on one connection.
fn ask_again<R: Net<Stream = TcpStream>>(
    rt: &R,
    addr: SocketAddr,
    refused: &mut bool,
) -> Result<(), Stop> {
    let mut stream = connect(rt, addr).map_err(stop_of)?;
    for part in TURNS_OF_RUN {
        ask_on(&mut stream, part, refused)?;
    }
    Ok(())
}

// The clients, one after the other; or the one that asks again.
fn ask_as<R: Net<Stream = TcpStream>>(
    rt: &R,
    addr: SocketAddr,
    clients: Option<[Part; 2]>,
    refused: &mut bool,
) -> Result<(), Stop> {
    match clients {
        Some(clients) => ask_in_turn(rt, addr, clients, refused),
        None => ask_again(rt, addr, refused),
    }
}

// Serves the clients over the desks, and each client gets what it wants. If one heard of a refusal, and went on, all
// else has to be as if there had been none.
fn serve_clients<R>(
    rt: &R,
    alloc: Global,
    desks: &Desks<R>,
    passes: Vec<Passes>,
    clients: Option<[Part; 2]>,
    faults: u64,
    refused: &mut bool,
) -> Result<(), Stop>
where
    R: Net<Listener = TcpListener, Stream = TcpStream> + Threads + Wait + Sync + Drop,
    requires own { All (ArePassesOf desks.now) passes.items }
{
    let connections = if clients.is_some() { 2 } else { 1 };
    let counts = (connections, faults, 1);
    let ((), _) = serve_while(rt, alloc, desks, passes, counts, |addr| {
        ask_as(rt, addr, clients, refused)
    })?;
    Ok(())
}

// The same with one worker, over the desk of one database.
fn serve_in_turn<R>(
    rt: &R,
    alloc: Global,
    clients: Option<[Part; 2]>,
    faults: u64,
    refused: &mut bool,
) -> Result<(), Stop>
where
    R: Net<Listener = TcpListener, Stream = TcpStream> + Threads + Wait + Sync + Copy + Drop,
{
    let (desks, passes) = Desks::new(alloc, *rt, dbs_of(alloc, 1)?, 1, TURNS)?;
    serve_clients(rt, alloc, &desks, passes, clients, faults, refused)
}

// The same, and from its beginning, once, if memory was refused to the test itself or ended a conversation or a worker:
// the service counts its connections, so that a client that was cut off has no other.
fn serve_on<R>(
    rt: &R,
    alloc: Global,
    clients: Option<[Part; 2]>,
    faults: u64,
    refused: &mut bool,
) -> Result<(), Stop>
where
    R: Net<Listener = TcpListener, Stream = TcpStream> + Threads + Wait + Sync + Copy + Drop,
{
    let done = serve_in_turn(rt, alloc, clients, faults, refused);
    if *refused || !matches!(done, Err(Stop::NoMemory)) {
        return done;
    }
    *refused = true;
    serve_in_turn(rt, alloc, clients, faults, refused)
}

/// A client that reads the reply to each frame before it writes the next one, on one connection.
#[test]
fn asks_and_asks_again(rt: HostRuntime) {
    let mut refused = !may_be_refused(&rt);
    let done = serve_on(&rt, rt.alloc(), None, 0, &mut refused);
    assert!(&rt; done.is_ok());
}

#[test]
fn serve_two_clients(rt: HostRuntime) {
    let mut refused = !may_be_refused(&rt);
    for (clients, faults) in CLIENTS {
        let done = serve_on(&rt, rt.alloc(), Some(clients), faults, &mut refused);
        assert!(&rt; done.is_ok());
    }
    let mut stop = serve_none(&rt, rt.alloc());
    if stop == Some(Stopped::NoMemory) && !refused {
        stop = serve_none(&rt, rt.alloc());
    }
    assert!(&rt; stop == Some(Stopped::Start));
}

// Why nothing is served with no pass.
fn serve_none<R: Net<Listener = TcpListener, Stream = TcpStream> + Threads + Wait + Sync>(
    rt: &R,
    alloc: Global,
) -> Option<Stopped> {
    let listener = TcpListener::bind(rt, "127.0.0.1:0").ok()?;
    let passes: Vec<SoloPass> = Vec::new(alloc);
    Some(serve(rt, alloc, &listener, &Solo, passes, 1).stop)
}
