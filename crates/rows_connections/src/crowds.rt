//! Crowds: the most databases, seats, workers, and many connections.

use crate::connections::{Holds, connect, report, serve_while, stop_of};
use crate::gates::{Rows, desks_answer_on};
use crate::memory::{check, may_be_refused};
use std::alloc::Global;
use std::io::{Read, Write};
use std::net::{Net, SocketAddr, TcpListener, TcpStream};
use std::sync::Wait;
use std::thread;
use std::thread::Threads;
use transcripts::transcript::Stop;

/// The most databases.
const DATABASES: usize = 16;

/// One more seat than there may be workers.
const SEATS: u32 = 65;

/// The most workers.
const WORKERS: usize = 64;

/// How many connections are open at the same time, one for each worker.
const AT_ONCE: usize = 64;

/// How many there are after those: four threads have this many each, one after the other.
const IN_TURN: u32 = 59;

const CONNECTIONS: u32 = 300;

// The pass of the last seat, and that of the seat before it, each ask the last database, and the first asks one that there
// is not. It finds both statuses in the last database then, and none in the one before it.
const MOST: Rows<'static> = [
    &[
        (15, "2 22 primary 1 status", "Status 1 2 0 0 0"),
        (16, "2 22 primary 1 status", "NoDatabase"),
    ],
    &[(15, "2 22 primary 1 status", "Status 1 2 0 0 0")],
    &[
        (
            15,
            "1 11 operator 1 audit 1 9",
            "Entries 1/65/2/primary/1/status/0/0/allowed 2/64/2/primary/1/status/0/0/allowed",
        ),
        (14, "1 11 operator 1 audit 1 9", "Entries"),
    ],
];

/// Desks of 16 databases with 65 seats, called through the last seat and at the last database.
#[test]
fn sixteen_databases_and_65_seats(rt: HostRuntime) {
    let alloc = rt.alloc();
    assert!(&rt; desks_answer_on(rt, alloc, DATABASES, SEATS, &MOST).is_ok());
}

// Reads the reply Done.
fn is_done(stream: &mut TcpStream) -> Result<bool, Stop> {
    let mut told = [0; 5];
    stream.read_exact(&mut told).map_err(stop_of)?;
    Ok(told == [0, 0, 0, 1, 0])
}

// Sends a request, and one byte of another that never comes: the connection ends in a fault.
fn asks(stream: &mut TcpStream) -> Result<(), Stop> {
    stream.write_all(&report(2)).map_err(stop_of)?;
    stream.write_all(&[0]).map_err(stop_of)
}

// One connection, which is closed again. Whether it is answered.
fn is_answered<R: Net<Stream = TcpStream>>(rt: &R, addr: SocketAddr) -> Result<bool, Stop> {
    let mut stream = connect(rt, addr).map_err(stop_of)?;
    asks(&mut stream)?;
    is_done(&mut stream)
}

// One connection after the other, each whatever came of those before, so that the service comes to its
// end. Whether all are answered.
fn asks_in_turn<R: Net<Stream = TcpStream>>(rt: &R, addr: SocketAddr) -> Result<bool, Stop> {
    let mut are_answered = true;
    for _ in 0..IN_TURN {
        let answered = is_answered(rt, addr);
        are_answered = are_answered && matches!(answered, Ok(true));
    }
    Ok(are_answered)
}

// Asks on each of these connections, and then reads their replies, from the last to the first.
fn asks_on_each(streams: &mut [TcpStream]) -> Result<bool, Stop> {
    for stream in streams.iter_mut() {
        asks(stream)?;
    }
    for stream in streams.iter_mut().rev() {
        if !is_done(stream)? {
            return Ok(false);
        }
    }
    Ok(true)
}

// This many connections, which are open at the same time. All of them are there before anything is asked, so that
// the service comes to its end.
fn asks_at_once<R: Net<Stream = TcpStream>>(
    rt: &R,
    addr: SocketAddr,
    room: Vec<TcpStream>,
) -> Result<bool, Stop> {
    let mut streams = room;
    for _ in 0..AT_ONCE {
        streams.push(connect(rt, addr).map_err(stop_of)?)?;
    }
    asks_on_each(&mut streams)
}

// Two threads of connections.
fn asks_by_two<R: Net<Listener = TcpListener, Stream = TcpStream> + Threads + Sync>(
    rt: &R,
    addr: SocketAddr,
) -> Result<bool, Stop> {
    let (first, second) = thread::join(rt, || asks_in_turn(rt, addr), || asks_in_turn(rt, addr));
    Ok(first? && second?)
}

// Connections at the same time, and then those of four threads.
fn asks_all<R: Net<Listener = TcpListener, Stream = TcpStream> + Threads + Sync>(
    rt: &R,
    addr: SocketAddr,
    room: Vec<TcpStream>,
) -> Result<bool, Stop> {
    let at_once = asks_at_once(rt, addr, room);
    let (first, second) = thread::join(rt, || asks_by_two(rt, addr), || asks_by_two(rt, addr));
    Ok(at_once? && first? && second?)
}

// A pass for each worker, of which the first counts from 0, the next from 1,000, and so on.
fn passes_of(alloc: Global) -> Result<Vec<u64>, Stop> {
    let mut passes = Vec::new(alloc);
    for worker in 0..WORKERS as u64 {
        passes.push(worker.saturating_mul(1_000))?;
    }
    Ok(passes)
}

// Each worker's pass is back at its place, and together they have as many calls as there were
// connections.
fn check_passes(passes: &[u64]) -> Result<(), Stop> {
    let mut calls: u64 = 0;
    let mut start: u64 = 0;
    for pass in passes {
        check(start < *pass && *pass < start.saturating_add(1_000))?;
        calls = calls.saturating_add(pass.saturating_sub(start));
        start = start.saturating_add(1_000);
    }
    check(passes.len() == WORKERS && calls == u64::from(CONNECTIONS))
}

// Serves the connections with this many workers.
fn serve_crowd<R: Net<Listener = TcpListener, Stream = TcpStream> + Threads + Wait + Sync>(
    rt: &R,
    alloc: Global,
) -> Result<(), Stop> {
    let passes = passes_of(alloc)?;
    let room = Vec::with_capacity(alloc, AT_ONCE)?;
    let counts = (CONNECTIONS, u64::from(CONNECTIONS), WORKERS);
    let (are_done, passes) = serve_while(
        rt,
        alloc,
        &Holds::new(alloc),
        passes,
        counts,
        move |addr| { asks_all(rt, addr, room) },
    )?;
    check(are_done)?;
    check_passes(&passes)
}

/// 300 connections with 64 workers: 64 that are open at the same time, so that each worker has one, and
/// then those of four threads, one after the other in each. Each ends inside a frame, and all of these faults are counted.
#[test]
fn sixty_four_workers(rt: HostRuntime) {
    let mut done = serve_crowd(&rt, rt.alloc());
    if matches!(done, Err(Stop::NoMemory)) && may_be_refused(&rt) {
        done = serve_crowd(&rt, rt.alloc());
    }
    assert!(&rt; done.is_ok());
}
