// Keys and the index: when two keys are equal, the home place of a key, and the search for a point
// in the lent index. That a search finds exactly the point that has the key, and that a new point at
// the empty place found keeps this so, is proved for every index in proofs/.
#![tactic(auto)]

pub mod home;
pub mod keys;
pub mod search;
