//! What rows look at: where requests and tables meet.

use crate::requests::op::{Op, Role};
use crate::requests::partitions::Partitions;

/// What rows look at: who asks, in which role, for which operation, and the partitions and the LSN
/// that are named. [`Request::asking`](crate::Request::asking) borrows it from a request.
#[derive(Clone, Copy)]
pub struct Asking<'a> {
    /// The id of the principal.
    pub principal: u32,
    /// The role in which it asks.
    pub role: Role,
    /// The operation that is asked for.
    pub op: Op,
    /// The partitions that are named.
    pub partitions: Partitions<'a>,
    /// The LSN that is named, if any.
    pub lsn: Option<u64>,
}
