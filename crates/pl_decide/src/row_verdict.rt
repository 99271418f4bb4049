//! What the rows of a table say of the requests with one key.

ghost use Rattle.std.specs.Prelude.{◌↔◌, IsTrue};
ghost use Rattle.pl_table.specs.Tables.Reach.{IsAtOne};

use pl_table::LsnRange;

// The first row that matches: its number, from 1, and whether it allows; `None` if no row matches.
pub(crate) type Found = Option<(u16, bool)>;

/// What the rows of a table say of the requests with one key, at some LSNs.
#[derive(Clone, Copy, Debug, PartialEq, Eq)]
pub struct RowVerdict {
    /// The first row that matches: its number, from 1, and whether it allows; `None` if none does.
    pub found: Option<(u16, bool)>,
    /// The LSNs of the requests of which this holds, or `None` if they name no LSN.
    pub lsns: Option<LsnRange>,
    /// The greatest LSN at which the rows allow a request with the key, whatever `lsns` are: they allow it
    /// at each up to this one, and at none above it. Kept for a get or a pull that they allow.
    pub allowed_through: Option<u64>,
}

impl RowVerdict {
    // Whether this holds of a request that names this LSN, or none.
    pub(crate) fn is_at(&self, lsn: Option<u64>) -> bool
        ensures exact { IsTrue result ↔ IsAtOne self.now.lsns lsn }
    {
        match (self.lsns, lsn) {
            (Some(lsns), Some(lsn)) => lsns.from <= lsn && lsn <= lsns.to,
            (None, None) => true,
            _ => false,
        }
    }
}
