//! One database for many threads. Each thread has a pass, with which it takes a ticket, waits for its
//! turn, makes one step of the database, and passes the turn on.
//!
//! A contract sees a [`Desk`] as a name and what it was made with, and a [`Pass`] as its number and
//! the history that it has seen. That history is legal, only grows, and has, of the entries under the pass's
//! number, those that the pass made. Two passes that meet then know what both had seen.
#![tactic(auto)]

mod boxed;
mod desk;
pub mod laws;
mod opening;
mod parkers;
mod pass;
mod plays;
mod queue;
mod rule;
mod steps;
mod turn;

pub use desk::Desk;
pub use pass::Pass;
