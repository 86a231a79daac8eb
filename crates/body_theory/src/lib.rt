// The theory of bodies: what it is to be in one piece, and that products of bodies are bodies. It has no code.
#![tactic(auto)]
