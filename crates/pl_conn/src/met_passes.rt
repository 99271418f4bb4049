//! Passes that meet in the end, so that one is left.

ghost use Rattle.std.specs.Prelude.{◌≡◌, IfSome};
ghost use Rattle.std.specs.List.{All};
ghost use Rattle.pl_conn.specs.Desks.{AllMet, ArePassesOf, HaveSeen};

use crate::desks::{Desks, Passes};
use std::marker::Model;
use std::snapshot::Snapshot;

/// The passes of workers and that of a page server, after they met. One is left, which has seen what each of them had. Only
/// [`Desks::meet_all`] makes it.
///
/// A contract sees the one that is left, and those that met as they were before.
#[derive(Drop)]
pub struct MetPasses {
    left: Passes,
    workers: Snapshot<Vec<Passes>>,
    pager: Snapshot<Option<Passes>>,
}

impl Model for MetPasses {
    ghost use Rattle.pl_conn.specs.Desks.{Met};

    ghost Value = { Met };

    ghost view = { λ m.
        record { left = m.left; workers = m.workers.value.items; pager = m.pager.value } };
}

impl MetPasses {
    /// The pass that is left.
    pub fn into_pass(self) -> Passes
        // The pass that is left.
        ensures value { result ≡ self.left }
    {
        let MetPasses {
            left,
            workers,
            pager,
        } = self;
        drop((workers, pager));
        left
    }
}

impl<R> Desks<R> {
    // Takes in all of the others, one after the other.
    fn take_in(&self, pass: Passes, others: Vec<Passes>) -> Passes
        requires of { ArePassesOf self.now pass }
        requires others { All (ArePassesOf self.now) others.items }
        ensures of { ArePassesOf self.now result }
        ensures own { HaveSeen result pass }
        ensures seen { All (HaveSeen result) others.items }
    {
        let mut pass = pass;
        let mut others = others;
        while let Some(other) = others.pop() {
            self.meet(&mut pass, other);
        }
        pass
    }

    /// Lets the passes of workers meet, and that of a page server if there is one. It neither waits nor takes a turn.
    pub fn meet_all(&self, workers: Vec<Passes>, pager: Option<Passes>) -> Option<MetPasses>
        // All of them are of these desks.
        requires workers { All (ArePassesOf self.now) workers.items }
        requires pager { IfSome pager (ArePassesOf self.now) }
        // One is left, which has seen at each desk all that each of them had; none if there were none (`AllMet`).
        ensures met { AllMet self.now workers.items pager result }
    {
        let (of_workers, of_pager) = (Snapshot::of(&workers), Snapshot::of(&pager));
        match pager {
            Some(pass) => Some(MetPasses {
                left: self.take_in(pass, workers),
                workers: of_workers,
                pager: of_pager,
            }),
            None => {
                let mut others = workers;
                let pass = others.pop()?;
                Some(MetPasses {
                    left: self.take_in(pass, others),
                    workers: of_workers,
                    pager: of_pager,
                })
            }
        }
    }
}
