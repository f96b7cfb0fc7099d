// Whole numbers: the division and the rounding that the machine's own operators do not give, and the
// product modulo 2^32, each as a small function with its meaning as its contract. Their laws, and the
// laws of sums, lists and signed numbers that every crate above cites, stand in proofs/.
#![tactic(auto)]

pub mod division;
pub mod round;
pub mod words;
