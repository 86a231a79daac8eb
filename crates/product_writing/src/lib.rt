// The elements of a product, written in their order: their subs by formula, their ends, and room for their sups.
#![tactic(auto)]

pub mod pairs;
