// Document 01's limits and refusal numbers, each once, and whether a list of coordinates is a
// position. What a lattice point is and what it weighs for a position stands in specs/, and what is
// true of that for every d in proofs/.
#![tactic(auto)]

pub mod limits;
pub mod position;
pub mod refusals;
