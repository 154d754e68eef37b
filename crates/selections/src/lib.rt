// Selection sets, with fields, aliases, arguments, directives and fragments. Siblings are loops; only depth recurses.
#![tactic(auto)]

mod argument;
mod directive;
mod field;
mod fragment;
mod selection;

pub use selection::selection_set;
