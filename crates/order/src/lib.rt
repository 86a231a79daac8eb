// The theory of order: what holds of ranked structures, before there is any slice, width or limit. It has no code.
#![tactic(auto)]
