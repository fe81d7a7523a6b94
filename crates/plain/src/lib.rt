//! The common type of two types without parts, by value: the rules of the source for them. No buffer
//! is read or written here.

#![tactic(auto)]

pub mod laws;
pub mod numbers;
pub mod sides;
pub mod step;
pub mod strings;
pub mod taken;
pub mod times;
pub mod value;
