// The theory of the search: what a search along neighbours finds, before there is any flag or table. It has no code.
#![tactic(auto)]
