//! Log blocks: an LSN and the page records written under it, and the one spelling of each block in
//! bytes.
//!
//! A contract sees a [`Block`] as its LSN and its records. That a block also keeps the partitions
//! that it touches and the length of its spelling, and that blocks share their bytes, is seen by no
//! contract. The bounds and the kind of failure that every crate shares are here too.
#![tactic(auto)]

mod block;
mod bounds;
mod fault;
mod few;
pub mod laws;
mod making;
mod reading;
mod record;
mod same_bytes;
pub mod seen;
mod touching;
mod writing;

pub use block::Block;
pub use bounds::{LAST_LSN, LONGEST_BLOCK, PAGE_SIZE, WINDOW};
pub use fault::{BlockFault, Failed, Fault};
pub use reading::decode;
pub use record::{PAGES_PER_PARTITION, Record};
pub use std::alloc::AllocError as NoMemory;
pub use touching::spelling_touches;
pub use writing::{encode, encode_onto, encoded_len};
