// The diamond: whether exactly two elements lie between any two that are two ranks apart and have one between them.
// It is asked of a listing whose subs and sups match up.
#![tactic(auto)]

pub mod dyadic;
