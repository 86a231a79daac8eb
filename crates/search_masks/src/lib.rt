// The change mask of a search: which changes it asks for, whether these can be made, and the next of them.
#![tactic(auto)]

pub mod mask;
