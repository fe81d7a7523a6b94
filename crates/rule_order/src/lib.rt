//! The order in which the merge tries the rules of the source: definitions, and the law that it gives the source's
//! answers.
#![tactic(auto)]

pub mod laws;
