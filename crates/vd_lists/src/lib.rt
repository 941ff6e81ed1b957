//! Laws of lists, options, booleans and numbers, on which the proofs of the crates above stand. There is no code here.
#![tactic(auto)]
