//! The worked rows and the cases of tables: texts and their faults, requests, decisions, cached
//! verdicts and the audit list. A library that has nothing but tests.
//!
//! docs/WORKED_ROWS.md has the list of the rows, and README.md the questions of the subjects.
#![tactic(auto)]

#[cfg(test)]
mod decisions;
#[cfg(test)]
mod ends_and_zones;
#[cfg(test)]
mod entries;
#[cfg(test)]
mod numbers;
#[cfg(test)]
mod principal_faults;
#[cfg(test)]
mod row_faults;
#[cfg(test)]
mod rules;
#[cfg(test)]
mod secrets;
#[cfg(test)]
mod table_faults;
#[cfg(test)]
mod verdicts;
#[cfg(test)]
mod written_tables;
