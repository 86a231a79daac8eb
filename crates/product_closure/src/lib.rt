// The theory that closed listings stay closed: closed listings are cells, and products of cells are cells. No code.
#![tactic(auto)]
