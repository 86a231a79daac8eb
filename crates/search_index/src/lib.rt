// Flags in a table, one after another, and an index by which a flag is looked up among them.
#![tactic(auto)]

pub mod index;
pub mod row;
