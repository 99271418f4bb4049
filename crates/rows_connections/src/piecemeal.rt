//! Connections of one worker whose frames come in pieces, so that two of them are inside a frame at the same time.

ghost use Rattle.std.specs.List.{All};
ghost use Rattle.pl_conn.specs.Desks.{ArePassesOf};

use crate::connections::{connect, serve_while, stop_of};
use crate::conversations::dbs_of;
use crate::cutting::first_frame;
use crate::memory::{check, may_be_refused};
use crate::talking::{TURNS, Told, is_spelled, told_by, wrong_or_refused};
use crate::talks::ALL_OPERATIONS;
use pl_conn::{Desks, Passes};
use pl_core::Reply;
use pl_wire::read_reply;
use std::alloc::Global;
use std::io::Write;
use std::net::{Net, SocketAddr, TcpListener, TcpStream};
use std::sync::Wait;
use std::thread::Threads;
use transcripts::transcript::Stop;

/// A status of database 1, which there is not: in three pieces, of which the first has a part of its length.
const STATUS: [&[u8]; 3] = [
    b"\0\0\0",
    b"\x1e\0\0\0\x02\x22\x22\x22\x22\x22\x22\x22\x22\x22\x22\x22\x22\x22\x22\x22\x22",
    b"\x01\0\0\0\x01\0\0\0\x01\x07",
];

/// The frame of its reply.
const NO_DATABASE: &[u8] = &[0, 0, 0, 1, 9];

/// The connections of a worker: one that asks all, another one that asks for the status, and a third one that shows that the
/// worker has read what the others sent before.
#[derive(Drop)]
struct Three {
    one: TcpStream,
    other: TcpStream,
    third: TcpStream,
}

// Reads a reply, which has to be this one.
fn is_told(alloc: Global, stream: &mut TcpStream, wanted: &[u8]) -> Result<(), Stop> {
    match read_reply(alloc, stream) {
        Ok(Reply::NoMemory) => Err(Stop::NoMemory),
        Ok(reply) => check(is_spelled(alloc, &reply, wanted)?),
        Err(fault) => check(wrong_or_refused(fault)?),
    }
}

// Two connections send a piece each, and the worker reads both.
fn send_pieces(
    alloc: Global,
    three: &mut Three,
    piece: &[u8],
    of_status: &[u8],
) -> Result<(), Stop> {
    three.one.write_all(piece).map_err(stop_of)?;
    three.other.write_all(of_status).map_err(stop_of)?;
    for part in STATUS {
        three.third.write_all(part).map_err(stop_of)?;
    }
    is_told(alloc, &mut three.third, NO_DATABASE)
}

// A frame comes in three pieces, or in two, the second of which is empty, beside a status in three.
fn ask_in_pieces(
    alloc: Global,
    three: &mut Three,
    frame: &[u8],
    is_in_two: bool,
    reply: &[u8],
) -> Result<(), Stop> {
    let (first, rest) = frame.split_at(frame.len().min(frame.len() / 3));
    let middle = if is_in_two { 0 } else { rest.len() / 2 };
    let (second, last) = rest.split_at(rest.len().min(middle));
    let [head, body, end] = STATUS;
    send_pieces(alloc, three, first, head)?;
    send_pieces(alloc, three, second, body)?;
    send_pieces(alloc, three, last, end)?;
    is_told(alloc, &mut three.one, reply)?;
    is_told(alloc, &mut three.other, NO_DATABASE)
}

// Each frame of a text.
fn ask_all(alloc: Global, three: &mut Three, told: &Told) -> Result<(), Stop> {
    let (mut requests, mut replies) = (told.requests.as_slice(), told.replies.as_slice());
    for number in 0..told.count {
        let (frame, reply) = (first_frame(requests)?, first_frame(replies)?);
        ask_in_pieces(alloc, three, frame, number % 2 == 0, reply)?;
        requests = requests.get(frame.len()..).ok_or(Stop::Unread)?;
        replies = replies.get(reply.len()..).ok_or(Stop::Unread)?;
    }
    check(requests.is_empty() && replies.is_empty())
}

// All of them are there before anything is asked, so that the service comes to its end.
fn connect_three<R: Net<Stream = TcpStream>>(rt: &R, addr: SocketAddr) -> Result<Three, Stop> {
    Ok(Three {
        one: connect(rt, addr).map_err(stop_of)?,
        other: connect(rt, addr).map_err(stop_of)?,
        third: connect(rt, addr).map_err(stop_of)?,
    })
}

fn ask_at<R: Net<Stream = TcpStream>>(
    rt: &R,
    alloc: Global,
    addr: SocketAddr,
    told: &Told,
) -> Result<(), Stop> {
    let mut three = connect_three(rt, addr)?;
    ask_all(alloc, &mut three, told)
}

// Serves them with one worker, over the desk of one database.
fn serve_three<R>(rt: &R, alloc: Global) -> Result<(), Stop>
where
    R: Net<Listener = TcpListener, Stream = TcpStream> + Threads + Wait + Sync + Copy + Drop,
{
    let (desks, passes) = Desks::new(alloc, *rt, dbs_of(alloc, 1)?, 1, TURNS)?;
    serve_three_at(rt, alloc, &desks, passes)
}

fn serve_three_at<R>(
    rt: &R,
    alloc: Global,
    desks: &Desks<R>,
    passes: Vec<Passes>,
) -> Result<(), Stop>
where
    R: Net<Listener = TcpListener, Stream = TcpStream> + Threads + Wait + Sync + Drop,
    requires own { All (ArePassesOf desks.now) passes.items }
{
    let told = told_by(alloc, ALL_OPERATIONS)?;
    let ((), _) = serve_while(rt, alloc, desks, passes, (3, 0, 1), |addr| {
        ask_at(rt, alloc, addr, &told)
    })?;
    Ok(())
}

/// Each of the eleven operations over a connection, its frame in two pieces or in three, while another connection of the same
/// worker is inside a frame too.
#[test]
fn two_connections_inside_a_frame(rt: HostRuntime) {
    let mut done = serve_three(&rt, rt.alloc());
    if matches!(done, Err(Stop::NoMemory)) && may_be_refused(&rt) {
        done = serve_three(&rt, rt.alloc());
    }
    assert!(&rt; done.is_ok());
}
