//! Wrappers about a value, and which of two rules can give an answer where a Dictionary meets run ends.
#![tactic(auto)]

pub mod laws;
pub mod walk;
