//! An arena of frames of 8,192 bytes, for versions of pages.
//!
//! A contract sees a [`VersionArena`] as a finite map from the frames that are out to their bytes, and
//! the number of chunks of 64 frames that there may be.
#![tactic(auto)]

mod arena;
mod chunk;
mod frames;
mod links;
mod memory;

pub use arena::{FrameId, TakeFault, VersionArena};

/// The bytes of a frame.
pub(crate) const FRAME_SIZE: usize = 8192;
