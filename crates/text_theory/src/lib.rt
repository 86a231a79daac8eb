// The theory of texts: the text of a listing, and what a text says. It has no code.
#![tactic(auto)]
