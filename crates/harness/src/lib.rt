//! What the programs share.
#![tactic(auto)]

/// Filling a buffer from a reader.
pub mod reading;
/// Counting what a program runs and comparing it with what is expected.
pub mod tally;
