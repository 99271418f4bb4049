//! A database in memory of its own.

ghost use Rattle.std.specs.Prelude.{◌≡◌, length, IfOk, IfErr};
ghost use Rattle.pl_core.specs.Legal.{IsLegal};

use pl_core::Db;
use std::alloc::{AllocFailed, Global};
use std::marker::Model;

/// A database in memory of its own: what a turn takes out and puts back is one word. A contract sees
/// its history, as of the database itself.
#[derive(Drop)]
pub struct BoxedDb {
    pub(crate) db: Box<Db>,
}

impl Model for BoxedDb {
    ghost use Rattle.pl_core.specs.History.{History};

    ghost Value = { History };

    ghost view = { λ b. b.db.value };
}

impl BoxedDb {
    /// Moves the database there. If memory is refused, it comes back.
    pub(crate) fn new(alloc: Global, db: Db) -> Result<BoxedDb, Db>
        ensures ok { IfOk result (λ boxed. boxed ≡ db) }
        ensures err { IfErr result (λ back. back ≡ db) }
    {
        match Box::new(alloc, db) {
            Ok(db) => Ok(BoxedDb { db }),
            Err(AllocFailed { value, .. }) => Err(value),
        }
    }

    /// How many entries its audit list has.
    pub(crate) fn audit_len(&self) -> u64
        ensures value { result ≡ length self.now.entries }
        ensures legal { IsLegal self.now }
    {
        self.db.audit_len()
    }

    /// Gives the database up.
    pub(crate) fn into_db(self) -> Db
        ensures value { result ≡ self }
    {
        let BoxedDb { db } = self;
        Box::into_inner(db)
    }
}

/// The database of the box, if there is one.
pub(crate) fn unboxed(boxed: Option<BoxedDb>) -> Option<Db>
    ensures value { result ≡ boxed }
{
    match boxed {
        Some(boxed) => Some(boxed.into_db()),
        None => None,
    }
}
