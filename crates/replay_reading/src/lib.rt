// Questions as text: letters, numbers and lists, read out of a line.
#![tactic(auto)]

pub mod text;
