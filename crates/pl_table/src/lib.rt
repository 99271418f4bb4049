//! Requests, and the written table that says who may append, pull, read and administer.
//!
//! A contract sees a [`Request`] as its head and its act, and a [`Table`] as its principals and its
//! rows. What rows look at in a request is its [`Asking`], where the two modules meet: `requests` is
//! what a request is, and `tables` what rows say to it. They are one crate, since an act brings a
//! table's text, which is read at once, and a table is asked with requests.
//!
//! [`Table::first_match`] finds the first row that matches a request. [`read_table`] reads a table
//! from its text, or reports the first fault of the text. What a denial by the table means for a
//! database is decided in the crates above.
#![tactic(auto)]

pub mod laws;
mod requests;
mod tables;

pub use pl_block::NoMemory;
pub use requests::{
    Act, Asking, Head, LONGEST_TEXT, MOST_LISTED, MOST_PULLED, MOST_STEPS, Op, Partitions, Request,
    Role,
};
pub use tables::{
    LsnRange, MOST_PRINCIPALS, MOST_ROWS, Ops, PartitionRange, Principal, ReadFault, Row, Section,
    Table, TableFault, TableText, Verdict, Zone, read_table,
};
