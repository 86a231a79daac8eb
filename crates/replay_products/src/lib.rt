// Questions on products, read from their lines and put to the library; the answers are printed, and returned is only
// whether they could be.
#![tactic(auto)]

pub mod pair;
