//! The page server of a service, and its rounds at the databases.

ghost use Rattle.std.specs.Prelude.{◌≡◌, IfSome};
ghost use Rattle.pl_conn.specs.Desks.{ArePassesOf, DesksCall};
ghost use Rattle.pl_program.specs.Pager.{Pages};

use pl_conn::{Desks, PageServer, Passes, materialise};
use std::snapshot::Snapshot;
use std::sync::Wait;
use std::thread::{Promise, PromisedHandle, Scope};

/// A page server with its passes, and at how many databases it makes its rounds.
#[derive(Drop)]
pub(crate) struct Paging {
    pub(crate) server: PageServer,
    pub(crate) passes: Passes,
    pub(crate) databases: u32,
}

/// That the passes which a page server leaves are these after its rounds at this many databases, of these desks.
pub(crate) struct Rounds<R> {
    desks: Snapshot<Desks<R>>,
    start: Snapshot<Passes>,
    server: PageServer,
    databases: u32,
}

impl<R> Drop for Rounds<R> {
    fn drop(self) {
        let Self {
            desks,
            start,
            server,
            databases: _,
        } = self;
        drop((desks, start, server));
    }
}

impl<R> Promise<Passes> for Rounds<R> {
    ghost kept_by = { λ p left. Pages DesksCall p.server p.databases p.start.value left
        × ArePassesOf p.desks.value left };
}

// Applies the log of each database, one after the other, and returns the passes.
#[tactic(auto, using(crate::proofs::Rounds::pages_start))]
fn page<R: Wait + Drop>(desks: &Desks<R>, paging: Paging) -> Passes
    requires of { ArePassesOf desks.now paging.passes }
    ensures pages { Pages DesksCall paging.server paging.databases paging.passes result }
    ensures of { ArePassesOf desks.now result }
{
    let Paging {
        server,
        passes,
        databases,
    } = paging;
    let mut passes = passes;
    for database in 0..databases {
        let _worked = materialise(desks, &mut passes, &server, database);
    }
    passes
}

/// Starts the page server. `None` if its thread could not be started.
pub(crate) fn start_pager<'s, E, R: Wait + Sync + Drop>(
    scope: &Scope<'s, E>,
    desks: &'s Desks<R>,
    paging: Paging,
) -> Option<PromisedHandle<Passes, Rounds<R>>>
    // The passes are of the desks.
    requires of { ArePassesOf desks.now paging.passes }
    // The thread that was started makes these rounds.
    ensures of { IfSome result (λ handle. (handle.promise.start.value ≡ paging.passes)
        × (handle.promise.server ≡ paging.server)
        × (handle.promise.databases ≡ paging.databases)
        × (handle.promise.desks.value ≡ desks.now)) }
{
    let promise = Rounds {
        desks: Snapshot::of(desks),
        start: Snapshot::of(&paging.passes),
        server: paging.server,
        databases: paging.databases,
    };
    match scope.spawn_with(promise, move || page(desks, paging)) {
        Ok(handle) => Some(handle),
        Err(_) => None,
    }
}
