//! The worked rows and the cases of the log: blocks and their codec, offers, the stores of the log, a
//! log on its own, pages and their frames. A library that has nothing but tests.
//!
//! docs/WORKED_ROWS.md has the list of the rows, and README.md the questions of the subjects.
#![tactic(auto)]

#[cfg(test)]
mod arenas;
#[cfg(test)]
mod blocks;
#[cfg(test)]
mod both_logs;
#[cfg(test)]
mod destaged_blocks;
#[cfg(test)]
mod draws;
#[cfg(test)]
mod landing_zone;
#[cfg(test)]
mod log;
#[cfg(test)]
mod log_reads;
#[cfg(test)]
mod logs;
#[cfg(test)]
mod memory;
#[cfg(test)]
mod newest_blocks;
#[cfg(test)]
mod offers;
#[cfg(test)]
mod pages;
#[cfg(test)]
mod plain;
#[cfg(test)]
mod pull_mixes;
#[cfg(test)]
mod stores;
