//! The cases of the program: readers and writers that fail, how far the input is read, and the requests
//! of an operator from end to end. A library that has nothing but tests.
//!
//! docs/WORKED_ROWS.md has the list of the cases.
#![tactic(auto)]

#[cfg(test)]
mod operator;
#[cfg(test)]
mod plays;
#[cfg(test)]
mod reading;
#[cfg(test)]
mod writing;
