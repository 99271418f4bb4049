//! Connections over the loopback: two at once, and a listener that fails.

ghost use Rattle.std.specs.Prelude.{⊤};
ghost use Rattle.std.specs.List.{All};

use crate::memory::{check, may_be_refused};
use pl_conn::{Gate, Served, Stop as Stopped, serve};
use pl_core::{Answer, Reply};
use pl_table::{Act, Request};
use std::alloc::Global;
use std::io::{self, ErrorKind, Read, Write};
use std::net::{Net, SocketAddr, TcpListener, TcpStream};
use std::sync::Wait;
use std::sync::atomic::{AtomicU64, Ordering};
use std::thread;
use std::thread::Threads;
use std::time::Duration;
use transcripts::transcript::Stop;

/// How many seconds a client waits for a reply before it gives up.
const PATIENCE: u64 = 20;

/// What an error of the system is to a test: a refusal, or something else.
pub(crate) fn stop_of(error: io::Error) -> Stop {
    if error.kind() == ErrorKind::OutOfMemory {
        Stop::NoMemory
    } else {
        Stop::Changed
    }
}

/// A connection whose reads give up in the end.
pub(crate) fn connect<R: Net<Stream = TcpStream>>(
    rt: &R,
    addr: SocketAddr,
) -> io::Result<TcpStream> {
    let stream = TcpStream::connect(rt, addr)?;
    stream.set_read_timeout(Some(Duration::from_secs(PATIENCE)))?;
    Ok(stream)
}

// A listener on a free port, and its address.
fn listen<R: Net<Listener = TcpListener, Stream = TcpStream>>(
    rt: &R,
) -> Result<(TcpListener, SocketAddr), Stop> {
    let listener = TcpListener::bind(rt, "127.0.0.1:0").map_err(stop_of)?;
    let addr = listener.local_addr().map_err(stop_of)?;
    Ok((listener, addr))
}

// This many connections were accepted, and this many ended in a fault, with a pass of each worker. A stop
// that shows a refusal is one; and so are more faults, or fewer passes, since these show no cause: who
// asks plays the test once more for them only if memory may be refused.
fn check_served<P>(
    served: &Served<P>,
    accepted: u32,
    faults: u64,
    workers: usize,
) -> Result<(), Stop> {
    let is_refused = matches!(served.stop, Stopped::NoMemory | Stopped::Start);
    if is_refused || served.faults > faults || served.passes.len() < workers {
        return Err(Stop::NoMemory);
    }
    let is_limit = served.stop == Stopped::Limit && served.passes.len() == workers;
    check(is_limit && served.accepted == accepted && served.faults == faults)
}

// Tells a client that the thread of its service was started, and the service that its client waits.
#[derive(Drop)]
struct Started {
    word: AtomicU64,
}

impl Started {
    fn new() -> Started {
        Started {
            word: AtomicU64::new(0),
        }
    }

    // For the service: whether its client has not given up. If no thread could be started the service
    // begins after its client.
    fn begins(&self) -> bool {
        self.word.swap(1, Ordering::SeqCst) == 0
    }

    // For the client: whether the service begins. It is a refusal that it does not.
    fn waits(&self) -> Result<(), Stop> {
        if comes(&self.word) || self.word.swap(2, Ordering::SeqCst) == 1 {
            Ok(())
        } else {
            Err(Stop::NoMemory)
        }
    }
}

// What is served if the client has given up.
fn unserved<P>(passes: Vec<P>) -> Served<P> {
    Served {
        accepted: 0,
        faults: 0,
        stop: Stopped::Start,
        passes,
    }
}

/// How many connections a service accepts, how many of them end in a fault, and how many workers there are.
pub(crate) type Counts = (u32, u64, usize);

/// Serves the connections while the clients ask, once the service has begun. What they were told, and the passes
/// of the workers.
pub(crate) fn serve_while<R, G, T, A>(
    rt: &R,
    alloc: Global,
    gate: &G,
    passes: Vec<G::Pass>,
    counts: Counts,
    ask: A,
) -> Result<(T, Vec<G::Pass>), Stop>
where
    R: Net<Listener = TcpListener, Stream = TcpStream> + Threads + Wait + Sync,
    G: Gate + Sync,
    G::Pass: Send + Drop,
    T: Drop,
    A: FnOnce(SocketAddr) -> Result<T, Stop> + Drop,
    requires own { All (G.owns gate.now) passes.items }
    requires asks { A.IsAlwaysCallable ask }
{
    let (connections, faults, workers) = counts;
    let (listener, addr) = listen(rt)?;
    let started = Started::new();
    let started = &started;
    let (served, told) = thread::join(
        rt,
        move || -> Served<G::Pass>
            requires own { All (G.owns gate.now) passes.items }
        {
            if !started.begins() {
                return unserved(passes);
            }
            let served = serve(rt, alloc, &listener, gate, passes, connections);
            drop(listener);
            served
        },
        move || -> Result<T, Stop>
            requires asks { A.IsAlwaysCallable ask }
        {
            started.waits()?;
            ask(addr)
        },
    );
    check_served(&served, connections, faults, workers)?;
    Ok((told?, served.passes))
}

/// A gate that answers a report of LSN 1 once it has answered another request, or Spent after many
/// turns. Its passes count their calls.
#[derive(Drop)]
pub(crate) struct Holds {
    alloc: Global,
    entered: AtomicU64,
    answered: AtomicU64,
}

impl Holds {
    /// Such a gate, of which nothing was asked.
    pub(crate) fn new(alloc: Global) -> Holds {
        Holds {
            alloc,
            entered: AtomicU64::new(0),
            answered: AtomicU64::new(0),
        }
    }
}

// Whether the word becomes 1, within many turns.
fn comes(word: &AtomicU64) -> bool {
    for _ in 0..1_000_000 {
        if word.load(Ordering::SeqCst) == 1 {
            return true;
        }
        thread::yield_now();
    }
    false
}

impl Gate for Holds {
    type Pass = u64;

    ghost owns = { λ _ _. ⊤ };

    ghost calls = { λ _ _ _ _ _. ⊤ };

    fn alloc(&self, _pass: &u64) -> Global {
        self.alloc
    }

    fn call_onto(&self, pass: &mut u64, request: Request, _page: &mut Vec<u8>) -> Answer {
        *pass = pass.saturating_add(1);
        if !matches!(request.act(), Act::Report { lsn: 1 }) {
            self.answered.store(1, Ordering::SeqCst);
            return Answer::Whole(Reply::Done);
        }
        self.entered.store(1, Ordering::SeqCst);
        Answer::Whole(if comes(&self.answered) {
            Reply::Done
        } else {
            Reply::Spent
        })
    }
}

// The frame of a report of LSN 0.
const REPORT: &[u8; 42] = b"\
\0\0\0\x26\0\0\0\x02\x22\x22\x22\x22\x22\x22\x22\x22\x22\x22\x22\x22\x22\x22\x22\x22\
\x01\0\0\0\0\0\0\0\x01\x03\0\0\0\0\0\0\0\0";

/// The frame of a report of the LSN.
pub(crate) fn report(lsn: u8) -> [u8; 42] {
    let mut frame = *REPORT;
    frame[41] = lsn;
    frame
}

// The second connection asks once the first one's request is in the gate. Their replies.
fn replies_on_both(
    first: &mut TcpStream,
    second: &mut TcpStream,
    gate: &Holds,
) -> Option<[[u8; 5]; 2]> {
    let (mut of_first, mut of_second) = ([0; 5], [0; 5]);
    first.write_all(&report(1)).ok()?;
    if !comes(&gate.entered) {
        return None;
    }
    second.write_all(&report(2)).ok()?;
    second.read_exact(&mut of_second).ok()?;
    first.read_exact(&mut of_first).ok()?;
    Some([of_first, of_second])
}

// The same of two clients that connect.
fn replies_to_both<R: Net<Stream = TcpStream>>(
    rt: &R,
    addr: SocketAddr,
    gate: &Holds,
) -> Option<[[u8; 5]; 2]> {
    let mut first = connect(rt, addr).ok()?;
    let mut second = connect(rt, addr).ok()?;
    replies_on_both(&mut first, &mut second, gate)
}

// Serves two connections with two workers, over a gate that answers the first request after the second.
fn serve_both<R: Net<Listener = TcpListener, Stream = TcpStream> + Threads + Wait + Sync>(
    rt: &R,
    alloc: Global,
) -> Result<(), Stop> {
    let gate = Holds::new(alloc);
    let passes = Vec::from_array(alloc, [5_u64, 8])?;
    let (replies, passes) = serve_while(rt, alloc, &gate, passes, (2, 0, 2), |addr| {
        Ok(replies_to_both(rt, addr, &gate))
    })?;
    check(replies == Some([[0, 0, 0, 1, 0]; 2]))?;
    check(passes.as_slice() == [6, 9].as_slice())
}

#[test]
fn two_connections_at_once(rt: HostRuntime) {
    let mut done = serve_both(&rt, rt.alloc());
    if matches!(done, Err(Stop::NoMemory)) && may_be_refused(&rt) {
        done = serve_both(&rt, rt.alloc());
    }
    assert!(&rt; done.is_ok());
}

// Two workers, at a listener whose first accept fails. Whether the passes come back as they were.
fn accept_none<R: Net<Listener = TcpListener, Stream = TcpStream> + Threads + Wait + Sync>(
    rt: &R,
    alloc: Global,
) -> Result<(), Stop> {
    let (listener, _) = listen(rt)?;
    listener.set_nonblocking(true).map_err(stop_of)?;
    let passes = Vec::from_array(alloc, [5_u64, 8])?;
    let served = serve(rt, alloc, &listener, &Holds::new(alloc), passes, 3);
    let is_refused = matches!(served.stop, Stopped::NoMemory | Stopped::Start);
    if is_refused || served.passes.len() < 2 {
        return Err(Stop::NoMemory);
    }
    check(served.accepted == 0 && served.faults == 0 && served.stop == Stopped::Accept)?;
    check(served.passes.as_slice() == [5, 8].as_slice())
}

#[test]
fn a_failed_accept_ends_it(rt: HostRuntime) {
    let mut done = accept_none(&rt, rt.alloc());
    if matches!(done, Err(Stop::NoMemory)) && may_be_refused(&rt) {
        done = accept_none(&rt, rt.alloc());
    }
    assert!(&rt; done.is_ok());
}
