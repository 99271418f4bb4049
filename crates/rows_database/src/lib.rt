//! The worked rows of one database: its changes, pages, audits and failovers. A library that has
//! nothing but tests.
//!
//! docs/WORKED_ROWS.md has the list of the rows, and README.md the questions of the subject.
#![tactic(auto)]

#[cfg(test)]
mod audits;
#[cfg(test)]
mod database;
#[cfg(test)]
mod failovers;
#[cfg(test)]
mod many_requests;
#[cfg(test)]
mod offered_blocks;
#[cfg(test)]
mod one_database;
#[cfg(test)]
mod runs;
#[cfg(test)]
mod served_pages;
#[cfg(test)]
mod sizes;
#[cfg(test)]
mod tables_in_force;
#[cfg(test)]
mod versions;
