//! Connections that share one worker: many of them, one that stays silent, and one that does not read.

ghost use Rattle.std.specs.Prelude.{⊤};
ghost use Rattle.std.specs.List.{All};
ghost use Rattle.pl_conn.specs.Desks.{ArePassesOf};

use crate::connections::{connect, report, serve_while, stop_of};
use crate::conversations::{FRAMES, dbs_of};
use crate::memory::{check, is_refused, may_be_refused};
use crate::talking::{TURNS, body_of, push_frame};
use pl_conn::{Desks, Gate, Passes};
use pl_core::{Answer, Reply};
use pl_table::{Act, Request};
use pl_wire::read_reply;
use std::alloc::Global;
use std::io::{Read, Write};
use std::net::{Net, SocketAddr, TcpListener, TcpStream};
use std::sync::Wait;
use std::thread::Threads;
use transcripts::transcript::Stop;

/// A gate that replies with the LSN of a report as the hardened end.
#[derive(Drop)]
struct Echoes {
    alloc: Global,
}

impl Gate for Echoes {
    type Pass = u64;

    ghost owns = { λ _ _. ⊤ };

    ghost calls = { λ _ _ _ _ _. ⊤ };

    fn alloc(&self, _pass: &u64) -> Global {
        self.alloc
    }

    fn call_onto(&self, pass: &mut u64, request: Request, _page: &mut Vec<u8>) -> Answer {
        *pass = pass.saturating_add(1);
        Answer::Whole(match request.act() {
            Act::Report { lsn } => Reply::Status {
                epoch: 1,
                primary: 2,
                hard: *lsn,
                pending: 0,
                landing: 0,
            },
            _ => Reply::Done,
        })
    }
}

/// How many connections speak.
const SPEAKING: u8 = 100;

// Reads a reply of the gate that echoes: the LSN that was reported.
fn told_lsn(alloc: Global, stream: &mut TcpStream) -> Result<u64, Stop> {
    match read_reply(alloc, stream) {
        Ok(Reply::Status { hard, .. }) => Ok(hard),
        Ok(_) => Err(Stop::Changed),
        Err(fault) => Err(if is_refused(fault) {
            Stop::NoMemory
        } else {
            Stop::Changed
        }),
    }
}

// Two reports on each connection, the second once all have sent the first, and then the replies, from the last connection
// to the first.
fn ask_on_each(alloc: Global, streams: &mut [TcpStream]) -> Result<(), Stop> {
    for more in [0, SPEAKING] {
        for (number, stream) in (0..SPEAKING).zip(streams.iter_mut()) {
            let frame = report(number.saturating_add(more));
            stream.write_all(&frame).map_err(stop_of)?;
        }
    }
    for (number, stream) in (0..SPEAKING).zip(streams.iter_mut()).rev() {
        check(told_lsn(alloc, stream)? == u64::from(number))?;
        check(told_lsn(alloc, stream)? == u64::from(number.saturating_add(SPEAKING)))?;
    }
    Ok(())
}

// The connections that speak.
fn connect_all<R: Net<Stream = TcpStream>>(
    rt: &R,
    addr: SocketAddr,
    streams: &mut Vec<TcpStream>,
) -> Result<(), Stop> {
    for _ in 0..SPEAKING {
        streams.push(connect(rt, addr).map_err(stop_of)?)?;
    }
    Ok(())
}

// One connection sends half a frame, the others ask, and in the end the half is made whole.
fn ask_amid_a_frame(
    alloc: Global,
    half: &mut TcpStream,
    streams: &mut [TcpStream],
) -> Result<(), Stop> {
    let frame = report(250);
    let (front, back) = frame.split_at(20);
    half.write_all(front).map_err(stop_of)?;
    ask_on_each(alloc, streams)?;
    half.write_all(back).map_err(stop_of)?;
    check(told_lsn(alloc, half)? == 250)
}

// The same. All of them are there before anything is asked, so that the service comes to its end.
fn ask_beside_half<R: Net<Stream = TcpStream>>(
    rt: &R,
    alloc: Global,
    addr: SocketAddr,
    streams: &mut Vec<TcpStream>,
) -> Result<(), Stop> {
    let mut half = connect(rt, addr).map_err(stop_of)?;
    connect_all(rt, addr, streams)?;
    ask_amid_a_frame(alloc, &mut half, streams)
}

// The same, while another connection stays silent.
fn ask_beside_silent<R: Net<Stream = TcpStream>>(
    rt: &R,
    alloc: Global,
    addr: SocketAddr,
    room: Vec<TcpStream>,
) -> Result<(), Stop> {
    let silent = connect(rt, addr).map_err(stop_of)?;
    let mut streams = room;
    let told = ask_beside_half(rt, alloc, addr, &mut streams);
    drop(silent);
    told
}

// Serves them with one worker.
fn serve_hundred<R: Net<Listener = TcpListener, Stream = TcpStream> + Threads + Wait + Sync>(
    rt: &R,
    alloc: Global,
) -> Result<(), Stop> {
    let passes = Vec::from_array(alloc, [7_u64])?;
    let room = Vec::with_capacity(alloc, usize::from(SPEAKING))?;
    let counts = (u32::from(SPEAKING).saturating_add(2), 0, 1);
    let ((), passes) = serve_while(rt, alloc, &Echoes { alloc }, passes, counts, move |addr| {
        ask_beside_silent(rt, alloc, addr, room)
    })?;
    check(passes.as_slice() == [208].as_slice())
}

/// A hundred connections with one worker. Each has its own replies in order, while one stays silent and one
/// has sent half a frame.
#[test]
fn hundred_connections_one_worker(rt: HostRuntime) {
    let mut done = serve_hundred(&rt, rt.alloc());
    if matches!(done, Err(Stop::NoMemory)) && may_be_refused(&rt) {
        done = serve_hundred(&rt, rt.alloc());
    }
    assert!(&rt; done.is_ok());
}

/// How many pages the slow reader asks for: their replies are more than sockets hold.
const GETS: u32 = 2_000;

/// The bytes of a page's reply after its length and its kind: its LSN and the page.
const REST_OF_PAGE: usize = 8 + 8_192;

/// The frame of the reply NoMemory.
const NO_MEMORY: [u8; 5] = [0, 0, 0, 1, 6];

// The frames of a block on page 0, hardened, and then of this many gets of it.
fn gets_of_page(alloc: Global) -> Result<Vec<u8>, Stop> {
    let (run, _) = FRAMES.split_at(FRAMES.len().min(160));
    let get = body_of(alloc, &["3", "33", "secondary", "1", "get", "0", "1"])?;
    let mut frames = Vec::from_slice(alloc, run)?;
    for _ in 0..GETS {
        push_frame(&mut frames, &get)?;
    }
    Ok(frames)
}

// Whether the reply is that of a get of page 0 at 1: its byte 0 is aa, and the others are zero.
fn is_page(head: [u8; 5], rest: &[u8]) -> bool {
    let Some((front, page)) = rest.split_at_checked(9) else {
        return false;
    };
    head == [0, 0, 32, 9, 2]
        && front == [0, 0, 0, 0, 0, 0, 0, 1, 0xaa].as_slice()
        && page.iter().all(|byte| *byte == 0)
}

// The frame of a status.
fn status_frame(alloc: Global) -> Result<Vec<u8>, Stop> {
    let body = body_of(alloc, &["2", "22", "primary", "1", "status"])?;
    let mut frame = Vec::new(alloc);
    push_frame(&mut frame, &body)?;
    Ok(frame)
}

// Asks for the pages, and reads the replies to the frames before the gets.
fn ask_for_pages(slow: &mut TcpStream, gets: &[u8]) -> Result<(), Stop> {
    slow.write_all(gets).map_err(stop_of)?;
    let mut told = [0; 15];
    slow.read_exact(&mut told).map_err(stop_of)?;
    check(told == [0, 0, 0, 1, 0, 0, 0, 0, 1, 0, 0, 0, 0, 1, 0])
}

// Asks for the status three times, and is answered.
fn ask_statuses(alloc: Global, other: &mut TcpStream, status: &[u8]) -> Result<(), Stop> {
    for _ in 0..3 {
        other.write_all(status).map_err(stop_of)?;
        check(told_lsn(alloc, other)? == 1)?;
    }
    Ok(())
}

// Reads all of the pages, up to a get that found no memory.
fn read_pages(alloc: Global, slow: &mut TcpStream) -> Result<(), Stop> {
    let mut rest = vec![in alloc; 0; REST_OF_PAGE]?;
    for _ in 0..GETS {
        let mut head = [0; 5];
        slow.read_exact(&mut head).map_err(stop_of)?;
        if head == NO_MEMORY {
            return Err(Stop::NoMemory);
        }
        slow.read_exact(&mut rest).map_err(stop_of)?;
        check(is_page(head, &rest))?;
    }
    Ok(())
}

// One client asks for pages and does not read, while another one asks and is answered. Then it reads them all. Both are there
// before anything is asked.
fn ask_beside_slow<R: Net<Stream = TcpStream>>(
    rt: &R,
    alloc: Global,
    addr: SocketAddr,
    frames: (&[u8], &[u8]),
) -> Result<(), Stop> {
    let mut slow = connect(rt, addr).map_err(stop_of)?;
    let mut other = connect(rt, addr).map_err(stop_of)?;
    let (gets, status) = frames;
    ask_for_pages(&mut slow, gets)?;
    ask_statuses(alloc, &mut other, status)?;
    read_pages(alloc, &mut slow)
}

// Serves both with one worker, over the desk of one database.
fn serve_slow<R>(rt: &R, alloc: Global) -> Result<(), Stop>
where
    R: Net<Listener = TcpListener, Stream = TcpStream> + Threads + Wait + Sync + Copy + Drop,
{
    let (desks, passes) = Desks::new(alloc, *rt, dbs_of(alloc, 1)?, 1, TURNS)?;
    serve_both_at(rt, alloc, &desks, passes)
}

fn serve_both_at<R>(
    rt: &R,
    alloc: Global,
    desks: &Desks<R>,
    passes: Vec<Passes>,
) -> Result<(), Stop>
where
    R: Net<Listener = TcpListener, Stream = TcpStream> + Threads + Wait + Sync + Drop,
    requires own { All (ArePassesOf desks.now) passes.items }
{
    let (gets, status) = (gets_of_page(alloc)?, status_frame(alloc)?);
    let frames = (gets.as_slice(), status.as_slice());
    let ((), _) = serve_while(rt, alloc, desks, passes, (2, 0, 1), |addr| {
        ask_beside_slow(rt, alloc, addr, frames)
    })?;
    Ok(())
}

/// One worker, and a connection that asks for 16 MB of pages before it reads any: another one is answered
/// meanwhile, and all pages come in the end.
#[test]
fn slow_reader_holds_nobody(rt: HostRuntime) {
    let mut done = serve_slow(&rt, rt.alloc());
    if matches!(done, Err(Stop::NoMemory)) && may_be_refused(&rt) {
        done = serve_slow(&rt, rt.alloc());
    }
    assert!(&rt; done.is_ok());
}
