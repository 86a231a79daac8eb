// What is asked of the two factors of a product.
#![tactic(auto)]

pub mod factors;
