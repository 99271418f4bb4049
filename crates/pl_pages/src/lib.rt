//! Pages as replays of the hardened log, given at a log sequence number (LSN).
//!
//! A contract sees [`Pages`] as the applied LSN of each partition, an index of the blocks that change
//! each page, the versions that are kept, and the number of chunks that versions may take.
#![tactic(auto)]

mod applied;
mod changes;
mod index;
pub mod laws;
mod newest;
mod pages;
mod versions;

pub use changes::redo;
pub use pages::Pages;
pub use pl_block::NoMemory;
