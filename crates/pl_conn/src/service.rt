//! Many connections at once, each served by one of several workers.

ghost use Rattle.std.specs.Prelude.{◌≡◌, ◌≤◌, [], IfSome, take, vec_len, vec_capacity};
ghost use Rattle.std.specs.List.{All};
ghost use Rattle.pl_conn.specs.Serving.{Accepts, Reaches, Returned, ServesConnections};
ghost use Rattle.pl_conn.specs.Workers.{AllOf, each_of};

use crate::acceptor::accept_all;
use crate::post::Post;
use crate::staff::Staff;
use crate::terms::Terms;
use crate::watch::{Unwatched, Watch};
use crate::worker::{Outcome, Worker};
use pl_wire::Gate;
use std::alloc::Global;
use std::net::{Net, TcpListener};
use std::snapshot::Snapshot;
use std::sync::Wait;
use std::thread;
use std::thread::{Promise, PromisedHandle, Scope, Threads};

/// Why no more connections were accepted.
#[derive(Clone, Copy, Debug, PartialEq, Eq)]
pub enum Stop {
    /// All that were asked for are accepted.
    Limit,
    /// The listener failed, and would fail again. A failure that passes is waited out: no free descriptor,
    /// no memory in the kernel, a connection that was gone before it was accepted.
    Accept,
    /// No worker could be started, or there was no pass.
    Start,
    /// An allocation failed before any worker was started.
    NoMemory,
}

/// What was served.
#[derive(Drop)]
pub struct Served<P> {
    /// How many connections were accepted.
    pub accepted: u32,
    /// How many conversations ended in a fault.
    pub faults: u64,
    /// Why no more were accepted.
    pub stop: Stop,
    /// The passes of the workers, in the order in which they were handed in.
    pub passes: Vec<P>,
}

// That the pass which a worker leaves is this one after calls of this gate.
struct WorkerPromise<G: Gate> {
    gate: Snapshot<G>,
    start: Snapshot<G::Pass>,
}

impl<G: Gate> Drop for WorkerPromise<G> {
    fn drop(self) {
        let Self { gate, start } = self;
        drop(gate);
        drop(start);
    }
}

impl<G: Gate> Promise<Outcome<G::Pass>> for WorkerPromise<G> {
    ghost kept_by = { λ p work. Reaches (G.calls p.gate.value) p.start.value work.pass ×
        G.owns p.gate.value work.pass };
}

// A worker with this pass, if its thread can be started.
fn start<'s, E, R: Wait + Sync, G: Gate + Sync>(
    scope: &Scope<'s, E>,
    rt: &'s R,
    worker: Worker,
    gate: &'s G,
    pass: G::Pass,
) -> Option<PromisedHandle<Outcome<G::Pass>, WorkerPromise<G>>>
where
    G::Pass: Send + Drop + 's,
    requires own { G.owns gate.now pass }
    ensures of { IfSome result (λ handle. (handle.promise.gate.value ≡ gate.now) ×
        (handle.promise.start.value ≡ pass)) }
{
    let promise = WorkerPromise {
        gate: Snapshot::of(gate),
        start: Snapshot::of(&pass),
    };
    match scope.spawn_with(promise, move || worker.work(rt, gate, pass)) {
        Ok(handle) => Some(handle),
        Err(_) => None,
    }
}

// Starts a worker with each pass, in their order, up to the first that cannot be started: that pass and
// those after it are dropped.
fn start_all<'s, E, R: Wait + Sync, G: Gate + Sync>(
    scope: &Scope<'s, E>,
    rt: &'s R,
    hired: Vec<Worker>,
    gate: &'s G,
    passes: Vec<G::Pass>,
    workers: Vec<PromisedHandle<Outcome<G::Pass>, WorkerPromise<G>>>,
) -> Vec<PromisedHandle<Outcome<G::Pass>, WorkerPromise<G>>>
where
    G::Pass: Send + Drop + 's,
    requires own { All (G.owns gate.now) passes.items }
    requires none { workers.items ≡ [] }
    requires room { vec_len passes ≤ vec_capacity workers }
    ensures passes { each_of result.items (λ h. h.promise.start.value) ≡
        take (vec_len result) passes.items }
    ensures of { AllOf result.items (λ h. h.promise.gate.value ≡ gate.now) }
    ensures room { vec_len result ≤ vec_len passes }
{
    let mut hired = hired;
    let mut passes = passes;
    let mut workers = workers;
    while !passes.is_empty() {
        if hired.is_empty() {
            break;
        }
        let worker = hired.remove(0);
        let pass = passes.remove(0);
        let Some(handle) = start(scope, rt, worker, gate, pass) else {
            break;
        };
        workers.push_reserved(handle);
    }
    workers
}

// Waits for each worker, in order, and puts their passes into `ended`. It also adds up their faults.
fn join_all<R: Threads, G: Gate>(
    rt: &R,
    gate: &G,
    workers: Vec<PromisedHandle<Outcome<G::Pass>, WorkerPromise<G>>>,
    ended: Vec<G::Pass>,
) -> (Vec<G::Pass>, u64)
where
    G::Pass: Send + Drop,
    requires gates { AllOf workers.items (λ h. h.promise.gate.value ≡ gate.now) }
    requires none { ended.items ≡ [] }
    requires room { vec_len workers ≤ vec_capacity ended }
    ensures passes { Returned (G.calls gate.now)
        (each_of workers.items (λ h. h.promise.start.value)) result.0.items }
    ensures own { All (G.owns gate.now) result.0.items }
    ensures count { vec_len result.0 ≡ vec_len workers }
{
    let mut workers = workers;
    let mut ended = ended;
    let mut faults: u64 = 0;
    while !workers.is_empty() {
        let worker = workers.remove(0);
        let Outcome { pass, faults: more } = worker.join(rt);
        ended.push_reserved(pass);
        faults = faults.saturating_add(more);
    }
    (ended, faults)
}

// The posts of the first workers, this many.
fn started_of(posts: Vec<Post>, workers: usize) -> Vec<Post>
    ensures value { result.items ≡ take workers posts.items }
{
    let mut posts = posts;
    posts.truncate(workers);
    posts
}

// Nothing was served.
fn stopped<P>(alloc: Global, stop: Stop) -> Served<P>
    ensures stop { result.stop ≡ stop }
    ensures accepted { result.accepted ≡ 0 }
    ensures passes { result.passes.items ≡ [] }
{
    Served {
        accepted: 0,
        faults: 0,
        stop,
        passes: Vec::new(alloc),
    }
}

// Accepts the connections for the workers of these posts. Then each of them sees that no more come.
fn accept_for<R: Wait, W: Watch>(rt: &R, terms: &Terms<W>, posts: Vec<Post>) -> (u32, Stop)
    ensures accepts { Accepts terms.now.connections result.0 result.1 }
{
    let mut posts = posts;
    let accepted = accept_all(rt, terms, posts.as_mut_slice());
    for post in posts {
        post.close();
    }
    accepted
}

// Starts the workers, accepts the connections, and waits for the workers.
fn serve_in<'s, E, R: Threads + Wait + Sync, G: Gate + Sync, W: Watch>(
    scope: &Scope<'s, E>,
    rt: &'s R,
    terms: &Terms<W>,
    staff: Staff,
    gate: &'s G,
    passes: Vec<G::Pass>,
) -> Served<G::Pass>
where
    G::Pass: Send + Drop + 's,
    requires own { All (G.owns gate.now) passes.items }
    ensures serves { ServesConnections (G.calls gate.now) (G.owns gate.now) passes.items
        terms.now.connections result.accepted result.stop result.passes.items }
{
    let asked = passes.len();
    let (Ok(workers), Ok(ended)) = (
        Vec::with_capacity(terms.alloc, asked),
        Vec::with_capacity(terms.alloc, asked),
    ) else {
        return stopped(terms.alloc, Stop::NoMemory);
    };
    let workers = start_all(scope, rt, staff.workers, gate, passes, workers);
    if workers.is_empty() {
        return stopped(terms.alloc, Stop::Start);
    }
    if workers.len() < asked {
        terms.watch.few_workers(workers.len(), asked);
    }
    let posts = started_of(staff.posts, workers.len());
    let (accepted, stop) = accept_for(rt, terms, posts);
    let (passes, faults) = join_all(rt, gate, workers, ended);
    Served {
        accepted,
        faults,
        stop,
        passes,
    }
}

/// Serves connections, with one worker thread for each pass, until this many were accepted; then it waits
/// for the workers to end. A worker serves all the connections that it was given, each as [`Conversation`] says: it
/// reads what is there, answers the frames that are whole, and writes what the socket takes. A new connection goes
/// to the worker that has the fewest. So one that is silent, or does not read its replies, holds up no other; a call
/// that waits for a turn holds up those of its worker.
///
/// A connection has its turn when its socket has something for it. A turn answers what one read brought, at most 65,540
/// bytes of frames. One whose replies were not all taken is not read from until they are: less than 256 KiB and one
/// reply more are kept for it. A silent one takes some hundred bytes.
///
/// The passes that come back are those of the workers, in the order in which they were handed in. If
/// a worker cannot be started, for lack of a thread, of descriptors or of memory, its pass and those after it are
/// dropped; with no worker at all the stop is `Start`. It takes two descriptors, and is started only if one more is
/// free for each worker, so that connections find as many.
///
/// A worker has all that its connections need from its start, for 1,024 of them: room for the longest frame of a
/// request, and for the replies that wait. A connection asks for memory of its own if a frame comes in pieces, or
/// if its socket does not take the replies, and ends if there is none. So a connection that is accepted is
/// answered, whatever memory is left.
///
/// Nothing is promised of how long it waits, or that it returns.
///
/// [`Conversation`]: crate::Conversation
pub fn serve<R: Threads + Wait + Net + Sync, G: Gate + Sync>(
    rt: &R,
    alloc: Global,
    listener: &TcpListener,
    gate: &G,
    passes: Vec<G::Pass>,
    connections: u32,
) -> Served<G::Pass>
where
    G::Pass: Send + Drop,
    // Each pass is the gate's.
    requires own { All (G.owns gate.now) passes.items }
    // At most `connections` are accepted, and exactly that many if the stop is `Limit`; at `Start`
    // none, and no pass is returned; at `Limit` and `Accept` one at least. The returned passes are a
    // prefix of those given, in order, each after a list of the gate's calls, and are the gate's
    // (`ServesConnections`).
    ensures serves { ServesConnections (G.calls gate.now) (G.owns gate.now) passes.items connections
        result.accepted result.stop result.passes.items }
{
    let terms = Terms {
        alloc,
        listener,
        connections,
        idle_polls: 0,
        watch: &Unwatched,
    };
    serve_watched(rt, &terms, gate, passes)
}

/// Serves as [`serve`] does, by these terms, and reports to their watch what it cannot do meanwhile. A worker that has nothing to do
/// first polls its sockets `idle_polls` times more, awake, unless another worker does so, and then sleeps; with 0, as `serve`
/// has it, it sleeps at once.
pub fn serve_watched<R: Threads + Wait + Net + Sync, G: Gate + Sync, W: Watch>(
    rt: &R,
    terms: &Terms<W>,
    gate: &G,
    passes: Vec<G::Pass>,
) -> Served<G::Pass>
where
    G::Pass: Send + Drop,
    // Each pass is the gate's.
    requires own { All (G.owns gate.now) passes.items }
    // At most `connections` are accepted, and exactly that many if the stop is `Limit`; at `Start`
    // none, and no pass is returned; at `Limit` and `Accept` one at least. The returned passes are a
    // prefix of those given, in order, each after a list of the gate's calls, and are the gate's
    // (`ServesConnections`).
    ensures serves { ServesConnections (G.calls gate.now) (G.owns gate.now) passes.items
        terms.now.connections result.accepted result.stop result.passes.items }
{
    let Ok(staff) = Staff::hire(rt, terms, passes.len()) else {
        return stopped(terms.alloc, Stop::NoMemory);
    };
    thread::scope(
        thread::scope_env(),
        rt,
        move |scope| -> Served<G::Pass>
            requires own { All (G.owns gate.now) passes.items }
            ensures serves { ServesConnections (G.calls gate.entry.now) (G.owns gate.entry.now)
                passes.items terms.entry.now.connections
                result.accepted result.stop result.passes.items }
        { serve_in(scope, rt, terms, staff, gate, passes) },
    )
}
