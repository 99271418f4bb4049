//! Who asks.

use crate::requests::op::Role;
use std::fmt;

/// Who asks: what each request says of its principal. The debug text leaves the token out.
#[derive(Clone, Copy, PartialEq, Eq)]
pub struct Head {
    /// The id under which the table lists the principal.
    pub principal: u32,
    /// The secret that shows that the request is the principal's.
    pub token: [u8; 16],
    /// The role in which it asks.
    pub role: Role,
    /// The number of the database, from 0.
    pub database: u32,
    /// The epoch that the principal takes to be the current one.
    pub epoch: u32,
}

impl fmt::Debug for Head {
    fn fmt<W: fmt::Write>(&self, f: &mut fmt::Formatter<W>) -> fmt::Result {
        f.debug_struct("Head")
            .field("principal", &self.principal)
            .field("role", &self.role)
            .field("database", &self.database)
            .field("epoch", &self.epoch)
            .finish_non_exhaustive()
    }
}
