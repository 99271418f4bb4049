//! What a service goes by.

use std::alloc::Global;
use std::net::TcpListener;

/// What a service goes by. None of it changes while the service runs.
#[derive(Clone, Copy)]
pub struct Terms<'a, W> {
    /// What it takes memory of.
    pub alloc: Global,
    /// Where its connections come from.
    pub listener: &'a TcpListener,
    /// How many connections it accepts.
    pub connections: u32,
    /// How often a worker that has nothing to do polls its sockets more, awake, before it sleeps.
    pub idle_polls: u32,
    /// Who hears what it cannot do meanwhile.
    pub watch: &'a W,
}
