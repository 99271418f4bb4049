//! Images of pages, the blocks that a generation begins with, and positions, which outlive its log
//! sequence numbers (LSNs).
//!
//! A contract sees an [`Image`] as a page and its bytes, and a [`Shift`] as the position that images
//! are of and the number of their blocks.
#![tactic(auto)]

mod image;
pub mod laws;
mod making;
mod packing;
mod position;
mod replays;

pub use image::{Image, are_rising};
pub use making::blocks_of;
pub use pl_block::NoMemory;
pub use position::{Position, Shift};
pub use replays::replay;
