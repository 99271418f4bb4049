//! The words that transcripts are made of, and what plays them.
//!
//! A transcript is a text. Each line asks a [`transcript::Subject`] something, and has the whole
//! answer after its `=`. A block, a request, a reply, a line of the audit list and a table are the
//! same words in the transcripts of all subjects.
#![tactic(auto)]

pub mod answer;
pub mod asking;
pub mod block_text;
pub mod codec;
pub mod line_text;
pub mod reply_text;
pub mod table_text;
pub mod transcript;
