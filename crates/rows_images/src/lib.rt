//! The worked rows of images: the blocks that a generation begins with, pages after blocks, positions.
//! A library that has nothing but tests.
#![tactic(auto)]

#[cfg(test)]
mod beginnings;
#[cfg(test)]
mod drawing;
#[cfg(test)]
mod positions;
#[cfg(test)]
mod replays;
