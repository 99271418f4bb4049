//! Connections, accepted and handed over to workers: which failures of an accept pass, and are waited out, and which worker
//! has the next socket.

ghost use Rattle.std.specs.Prelude.{◌≡◌};
ghost use Rattle.std.specs.IoError.{raw_os_error};
ghost use Rattle.pl_conn.specs.Serving.{Accepts, is_passing};

use crate::post::Post;
use crate::service::Stop;
use crate::terms::Terms;
use crate::watch::Watch;
use std::io;
use std::net::TcpStream;
use std::sync::Wait;
use std::sync::atomic::AtomicU64;
use std::time::Duration;

/// The failures of an accept that say nothing of the listener, by their numbers on Linux (the manual's
/// page accept(2)): a connection that was gone before it was accepted, or was not let in (1, 71, 103), a
/// call that was interrupted (4), no memory (12, 105), no free descriptor in the system or in the process
/// (23, 24), or a network that is down (64, 92, 100, 101, 112, 113).
const PASSING: [i32; 14] = [1, 4, 12, 23, 24, 64, 71, 92, 100, 101, 103, 105, 112, 113];

/// How many milliseconds the listener rests after such a failure.
const REST: u64 = 20;

// Whether the listener may accept again after this failure.
fn passes(error: &io::Error) -> bool
    ensures value { result ≡ is_passing (raw_os_error error.now) }
{
    match error.raw_os_error() {
        Some(code) => PASSING.contains(&code),
        None => false,
    }
}

// The next connection. After a failure that passes the listener rests, and accepts again: the connections
// that wait at it are kept by the system meanwhile. The first such failure is reported. An error is one of the
// listener itself.
fn accept<R: Wait, W: Watch>(
    rt: &R,
    terms: &Terms<W>,
    is_reported: &mut bool,
) -> io::Result<TcpStream> {
    let rest = AtomicU64::new(0);
    for _ in rt.forever() {
        match terms.listener.accept() {
            Ok((socket, _)) => return Ok(socket),
            // Nobody wakes it: the time ends the rest.
            Err(error) if passes(&error) => {
                if !*is_reported {
                    terms.watch.accept_rests(&error);
                    *is_reported = true;
                }
                rest.park_timeout(rt, 0, Duration::from_millis(REST));
            }
            Err(error) => return Err(error),
        }
    }
    unreachable!()
}

// The place of the worker that has the fewest connections.
fn fewest(posts: &[Post]) -> usize {
    let mut place = 0;
    let mut least = u64::MAX;
    for (at, post) in posts.iter().enumerate() {
        let open = post.open();
        if open < least {
            least = open;
            place = at;
        }
    }
    place
}

// Hands the socket to the worker at this place, if its channel has room. Else the socket comes back.
fn offer<R: Wait>(
    rt: &R,
    posts: &mut [Post],
    place: usize,
    socket: TcpStream,
) -> Option<TcpStream> {
    match posts.get_mut(place) {
        Some(post) => post.offer(rt, socket),
        None => Some(socket),
    }
}

// Hands the socket to the worker that has the fewest connections. If its channel is full, it goes to the first
// that has room; if none has, to that worker, once it has.
fn hand_over<R: Wait>(rt: &R, posts: &mut [Post], socket: TcpStream) {
    let place = fewest(posts);
    let mut left = offer(rt, posts, place, socket);
    for other in 0..posts.len() {
        left = match left {
            Some(socket) => offer(rt, posts, other, socket),
            None => None,
        };
    }
    if let (Some(socket), Some(post)) = (left, posts.get_mut(place)) {
        post.send(rt, socket);
    }
}

/// Accepts as many connections as the terms say, and hands their sockets to the workers.
pub(crate) fn accept_all<R: Wait, W: Watch>(
    rt: &R,
    terms: &Terms<W>,
    posts: &mut [Post],
) -> (u32, Stop)
    ensures accepts { Accepts terms.now.connections result.0 result.1 }
{
    let mut is_reported = false;
    for accepted in 0..terms.connections {
        let Ok(socket) = accept(rt, terms, &mut is_reported) else {
            return (accepted, Stop::Accept);
        };
        hand_over(rt, posts, socket);
    }
    (terms.connections, Stop::Limit)
}
