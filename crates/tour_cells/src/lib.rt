// Cells by name, each in a module of its own.
#![tactic(auto)]

pub mod dyad;
pub mod hemicube;
pub mod leaking_box;
pub mod lidless_box;
pub mod nullitope;
pub mod one_on_top;
pub mod point;
pub mod struck;
pub mod three_on_top;
pub mod triangle;
pub mod twice_listed;
pub mod two_minimal;
pub mod whole_box;
