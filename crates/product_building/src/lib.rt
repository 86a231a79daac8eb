// Writing the product of two factors into lent slices: its counts, its elements, and the sups that follow from them.
// Everything here asks for a plan that fits; `product` has it (`proofs/Planned.antt`).
#![tactic(auto)]

pub mod build;
