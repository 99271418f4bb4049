//! The worked rows and the cases of the service: requests and replies as bytes, frames, and desks. A
//! library that has nothing but tests.
//!
//! docs/WORKED_ROWS.md has the list of the rows, and README.md the questions of the subjects.
#![tactic(auto)]

#[cfg(test)]
mod bodies;
#[cfg(test)]
mod desk_changes;
#[cfg(test)]
mod desks;
#[cfg(test)]
mod few_turns;
#[cfg(test)]
mod frames;
#[cfg(test)]
mod framing;
#[cfg(test)]
mod opened_desks;
#[cfg(test)]
mod pieces;
#[cfg(test)]
mod reply_bodies;
#[cfg(test)]
mod reply_faults;
#[cfg(test)]
mod wire;
