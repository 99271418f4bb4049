//! What the program pagelog plays and shows: a database that begins with the table of a file, lines of
//! bodies that it answers, the requests that an operator's words ask for, and replies as text.
//!
//! What a database begins with, what [`play`] answers to any input and what [`admin`] asks for are
//! contracts for any reader, writer and list of words. A contract sees a `Db` as its history, a reader
//! as the bytes that it has left, and a writer as the bytes that it holds, each if that is known.
#![tactic(auto)]

mod fault;
mod lines;
mod operator_words;
mod player;
mod replies;
mod reply_text;
mod start;
mod text;

pub use fault::PlayFault;
pub use lines::{InputFault, take_line};
pub use operator_words::{AdminFault, Credentials, admin};
pub use player::play;
pub use reply_text::answer_text;
pub use start::{FileFault, StartFault, file_fault_of, read_text, start_db, start_play};
pub use text::{HexFault, bytes_of_line};
