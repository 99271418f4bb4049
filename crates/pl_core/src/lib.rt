//! One database: who may do what is decided, blocks are hardened and served, and each decision is
//! entered in an audit list.
//!
//! A contract sees a [`Db`] as its history alone: what it began from, and each entry with what it did.
//! Which blocks are hardened, what is above them and what the next request is answered all follow
//! from the history; the code keeps them.
#![tactic(auto)]

mod db;
mod items;
pub mod laws;
mod limits;
mod line;
mod lower;
mod reply;
mod run;
mod state;
mod step;
mod verdict;

pub use db::{Db, DbFault};
pub use items::Items;
pub use limits::Limits;
pub use pl_audit::Line;
pub use pl_block::NoMemory;
pub use pl_decide::Epochs;
pub use reply::{Answer, Blocks, Lines, PageBytes, Reply};
