//! The worked rows of trails: audit lists that are kept and played again. A library that has nothing but tests.
#![tactic(auto)]

#[cfg(test)]
mod agreeing;
#[cfg(test)]
mod differing;
#[cfg(test)]
mod trails;
