//! The decision on a request: the first rule of the written order that denies it.
//!
//! The written order is section A (who asks, in which epoch and role), section B (the rows of the
//! table in force) and section C (what the log has). Section C is read from a [`View`], which the
//! caller fills, so that the decision needs no log and no history. [`laws`] has what follows from
//! the order.
#![tactic(auto)]

mod cache;
mod decider;
mod key;
pub mod laws;
mod log_rules;
mod row_verdict;
mod rule;
mod through;
mod view;

pub use decider::{Decider, known};
pub use key::VerdictKey;
pub use row_verdict::RowVerdict;
pub use rule::Rule;
pub use view::{Epochs, View};
