// Types, with events. A type calls itself for its item, with remaining depth falling.
#![tactic(auto)]

pub mod ty;
