// The theory of volumes: what is added up over the even flags of a cell, and what changes and moves do to it. It has no
// code.
#![tactic(auto)]
