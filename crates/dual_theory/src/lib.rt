// The theory of duals: what the dual of a listing is, that it is closed where the listing is, and what it makes of
// products. No code.
#![tactic(auto)]
