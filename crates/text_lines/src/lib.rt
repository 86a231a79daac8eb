// Lines of a text: their keys, their numbers.
#![tactic(auto)]

pub mod lines;
