//! The worked rows and the cases of connections: conversations, services over sockets, and gates. A
//! library that has nothing but tests.
//!
//! docs/WORKED_ROWS.md has the list of the rows, and README.md the questions of the subjects.
#![tactic(auto)]

#[cfg(test)]
mod clients;
#[cfg(test)]
mod connections;
#[cfg(test)]
mod conversations;
#[cfg(test)]
mod crowds;
#[cfg(test)]
mod cutting;
#[cfg(test)]
mod gates;
#[cfg(test)]
mod memory;
#[cfg(test)]
mod piecemeal;
#[cfg(test)]
mod refusals;
#[cfg(test)]
mod resting;
#[cfg(test)]
mod sharing;
#[cfg(test)]
mod talking;
#[cfg(test)]
mod talks;
#[cfg(test)]
mod waits;
