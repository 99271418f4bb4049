//! A service: databases and their desks, workers that serve connections, and a page server.

ghost use Rattle.std.specs.Prelude.{◌≡◌, ◌++◌, ◌∷◌, ◌≤◌, ◌⊎◌, [], IfErr, IfOk, IfSome, IsNone, IsSome, length, vec_len};
ghost use Rattle.std.specs.List.{All};
ghost use Rattle.pl_conn.specs.Desks.{AllMet, ArePassesOf, DesksCall};
ghost use Rattle.pl_conn.specs.Serving.{ServesConnections};
ghost use Rattle.pl_program.specs.Pager.{AreLeftBy};
ghost use Rattle.pl_program.specs.Service.{ServesDatabases};

use crate::pager::{Paging, start_pager};
use crate::run_fault::RunFault;
use pl_conn::{Desks, MetPasses, PageServer, Passes, Served, Stop, Terms, Watch, serve_watched};
use pl_core::Db;
use std::net::Net;
use std::sync::Wait;
use std::thread;
use std::thread::{Scope, Threads};

/// The most turns that a desk has: one for each request of centuries.
const TURNS: u64 = 1 << 62;

/// What a service did.
#[derive(Drop)]
pub struct ServedDatabases {
    /// How many connections were accepted.
    pub accepted: u32,
    /// How many conversations ended in a fault.
    pub faults: u64,
    /// Why no more were accepted.
    pub stop: Stop,
    /// The passes of the workers and of the page server, which have met: one is left. `None` if none came back.
    pub met: Option<MetPasses>,
}

// What the workers and the page server left, before their passes met.
#[derive(Drop)]
struct Left {
    connections: Served<Passes>,
    // The passes of the page server after its rounds; `None` if there is no page server.
    pager: Option<Passes>,
}

// Serves connections, and at the same time lets the page server make its rounds, if there is one. `None` if the
// page server's thread could not be started.
fn serve_and_page<'s, E, R: Threads + Wait + Net + Sync + Drop, W: Watch>(
    scope: &Scope<'s, E>,
    rt: &'s R,
    terms: &Terms<W>,
    desks: &'s Desks<R>,
    passes: Vec<Passes>,
    paging: Option<Paging>,
) -> Option<Left>
    requires own { All (ArePassesOf desks.now) passes.items }
    requires pager { IfSome paging (λ p. ArePassesOf desks.now p.passes) }
    ensures serves { IfSome result (λ s. ServesConnections DesksCall (ArePassesOf desks.now)
        passes.items terms.now.connections s.connections.accepted s.connections.stop
        s.connections.passes.items) }
    // If there is a page server, it was started and waited for.
    ensures paged { IfSome result (λ s. AreLeftBy desks.now paging s.pager) }
    ensures none { IsNone result → IsSome paging }
{
    let Some(paging) = paging else {
        return Some(Left {
            connections: serve_watched(rt, terms, desks, passes),
            pager: None,
        });
    };
    let started = start_pager(scope, desks, paging)?;
    let connections = serve_watched(rt, terms, desks, passes);
    let left = started.join(rt);
    Some(Left {
        connections,
        pager: Some(left),
    })
}

// Takes out the last of the passes.
fn take_last<R>(desks: &Desks<R>, passes: &mut Vec<Passes>) -> Passes
    requires some { 1 ≤ vec_len passes.old }
    requires of { All (ArePassesOf desks.now) passes.old.items }
    ensures value { passes.old.items ≡ passes.new.items ++ result ∷ [] }
    ensures rest { All (ArePassesOf desks.now) passes.new.items }
    ensures of { ArePassesOf desks.now result }
{
    let Some(last) = passes.pop() else {
        unreachable!();
    };
    last
}

// Serves the databases of the desks, with a worker for each of the passes.
fn serve_over<R: Threads + Wait + Net + Sync + Drop, W: Watch>(
    rt: &R,
    terms: &Terms<W>,
    desks: &Desks<R>,
    passes: Vec<Passes>,
    paging: Option<Paging>,
) -> Option<Left>
    requires own { All (ArePassesOf desks.now) passes.items }
    requires pager { IfSome paging (λ p. ArePassesOf desks.now p.passes) }
    ensures serves { IfSome result (λ s. ServesConnections DesksCall (ArePassesOf desks.now)
        passes.items terms.now.connections s.connections.accepted s.connections.stop
        s.connections.passes.items) }
    ensures paged { IfSome result (λ s. AreLeftBy desks.now paging s.pager) }
    ensures none { IsNone result → IsSome paging }
{
    let (alloc, listener, watch) = (terms.alloc, terms.listener, terms.watch);
    let (connections, idle_polls) = (terms.connections, terms.idle_polls);
    thread::scope(
        thread::scope_env(),
        rt,
        move |scope| -> Option<Left>
            requires own { All (ArePassesOf desks.now) passes.items }
            requires pager { IfSome paging (λ p. ArePassesOf desks.now p.passes) }
            ensures serves { IfSome result (λ s. ServesConnections DesksCall
                (ArePassesOf desks.entry.now) passes.items connections
                s.connections.accepted s.connections.stop s.connections.passes.items) }
            ensures paged { IfSome result (λ s. AreLeftBy desks.entry.now paging s.pager) }
            ensures none { IsNone result → IsSome paging }
        {
            let terms = Terms {
                alloc,
                listener,
                connections,
                idle_polls,
                watch,
            };
            serve_and_page(scope, rt, &terms, desks, passes, paging)
        },
    )
}

// Lets the passes meet that came back.
fn meet<R>(desks: &Desks<R>, left: Left) -> ServedDatabases
    requires own { All (ArePassesOf desks.now) left.connections.passes.items }
    requires pager { IfSome left.pager (ArePassesOf desks.now) }
    ensures same { (result.accepted ≡ left.connections.accepted)
        × (result.faults ≡ left.connections.faults) × (result.stop ≡ left.connections.stop) }
    ensures met { AllMet desks.now left.connections.passes.items left.pager result.met }
{
    let Left { connections, pager } = left;
    let Served {
        accepted,
        faults,
        stop,
        passes,
    } = connections;
    ServedDatabases {
        accepted,
        faults,
        stop,
        met: desks.meet_all(passes, pager),
    }
}

/// Serves the databases to connections by these terms, with this many workers. If
/// there is a page server, it works at the same time, in a thread of its own, and is waited for. One worker at a time that has
/// nothing to do polls its sockets more before it sleeps, as the terms say. What the service cannot do while it goes on is
/// reported to their watch. In the end the passes of the workers and of the page server meet, and one is left.
///
/// `NoMemory` if the desks found none, and `Threads` if the page server's thread could not be
/// started.
pub fn serve_databases<R: Threads + Wait + Net + Sync + Copy + Drop, W: Watch>(
    rt: &R,
    terms: &Terms<W>,
    dbs: Vec<Db>,
    workers: u32,
    pager: Option<PageServer>,
) -> Result<ServedDatabases, RunFault>
    // 1 to 16 databases.
    requires some { 1 ≤ vec_len dbs }
    requires few { vec_len dbs ≤ 16 }
    // At most 64 workers.
    requires workers { workers ≤ 64 }
    // Each database has a desk, with a seat for each worker and one for the page server. The workers'
    // passes that come back are passes of these desks, each after a list of calls. It says how many
    // connections were accepted, by why it stopped. The page server's passes come back if there is
    // one, after its rounds at each database, in turn. These have met, and one is left
    // (`ServesDatabases`).
    ensures serves { IfOk result (λ s. ServesDatabases dbs.items workers terms.now.connections pager
        s.accepted s.stop s.met) }
    // The fault is `NoMemory`, or `Threads` if there is a page server.
    ensures err { IfErr result (λ fault. (fault ≡ RunFault.NoMemory)
        ⊎ ((fault ≡ RunFault.Threads) × IsSome pager)) }
{
    let databases = dbs.len() as u32;
    let (desks, mut passes) = Desks::new(terms.alloc, *rt, dbs, workers + 1, TURNS)?;
    let last = take_last(&desks, &mut passes);
    let paging = match pager {
        Some(server) => Some(Paging {
            server,
            passes: last,
            databases,
        }),
        None => None,
    };
    match serve_over(rt, terms, &desks, passes, paging) {
        Some(left) => Ok(meet(&desks, left)),
        None => Err(RunFault::Threads),
    }
}
