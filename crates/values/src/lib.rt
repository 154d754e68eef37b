// Values and constant values, with events, in the crate's files. Items of a list and fields of an object are loops; only depth recurses.
#![tactic(auto)]

pub mod name;
pub mod token;
pub mod value;
mod variable;
