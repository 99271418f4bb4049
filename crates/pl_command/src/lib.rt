//! What the arguments of the program pagelog ask for: one of its subcommands with its options, or help.
//!
//! The arguments are read with `clap`. What they ask for follows from them by a definition of the
//! program's options, and arguments that `clap` takes are never a usage error.
#![tactic(auto)]

mod arguments;
mod command_line;
mod options;

pub use arguments::{arguments_of, asked};
pub use command_line::{CommandFault, CommandLine, ServeNumbers, command};
pub use options::OPERATOR_WORDS;
