//! Connections: the frames of requests that come from a reader are handed to a gate, one after the
//! other, and the frames of the replies go to a writer.
//!
//! A [`Gate`] says which replies it may give. [`Solo`] answers from databases that its pass holds, and
//! [`Desks`] from databases that many threads call. [`materialise`] applies the log to a partition.
#![tactic(auto)]

mod acceptor;
mod answers;
mod cause;
mod conversation;
mod desks;
mod inbox;
mod lines;
mod lookout;
mod met_passes;
mod outbox;
mod page_server;
mod post;
mod service;
mod solo;
mod source;
mod staff;
mod terms;
mod turn_laws;
mod watch;
mod whole_conversation;
mod worker;

pub use cause::{Cause, ConnFault};
pub use conversation::{Conversation, Rest, Room};
pub use desks::{Desks, Passes};
pub use met_passes::MetPasses;
pub use page_server::{PageServer, Worked, materialise};
pub use pl_wire::Gate;
pub use service::{Served, Stop, serve, serve_watched};
pub use solo::{Solo, SoloPass};
pub use source::Source;
pub use terms::Terms;
pub use turn_laws::{turns_among_others_are_a_conversation, turns_are_a_conversation, turns_join};
pub use watch::{Unwatched, Watch};
pub use whole_conversation::converse;
