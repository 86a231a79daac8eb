// The theory of the four products: what they are, and that they keep cells closed. It has no code.
#![tactic(auto)]
