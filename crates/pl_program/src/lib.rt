//! What the program pagelog does: `play` answers request bodies as lines of hexadecimal text, `serve`
//! answers the requests of connections, and `ask` sends one request of an operator to such a service.
//!
//! Databases are held in memory, and begin with the table of a file. What the arguments ask for is read
//! by `pl_command`, and what `play` answers is of `pl_play`. What `serve` begins with, does and ends in,
//! what `ask` sends and reads, and how the program ends are contracts here; [`run`] joins them to the
//! input and output of a process.
#![tactic(auto)]

mod ask_command;
mod causes;
mod complaint;
mod ending;
mod notes;
mod opening;
mod operator;
mod pager;
mod play_command;
mod program;
mod run_fault;
mod serve_command;
mod service;
mod tally;
mod teller;
mod texts;

pub use ending::{Ending, Failure};
pub use opening::{Opening, databases_of, opening_of, pager_of, token_of};
pub use operator::{credentials_of, exchange, file_of};
pub use program::run;
pub use run_fault::RunFault;
pub use service::{ServedDatabases, serve_databases};
pub use tally::{Tally, result_of, tally_of};
pub use teller::Crew;
