// The book of a table: its settings and lengths, a fresh table with its book, and entries written. What
// a book is, soundness with it and what the calls answer stand in specs/, and the laws of that in
// proofs/.
#![tactic(auto)]

pub mod fresh;
pub mod settings;
pub mod writing;
