#![tactic(auto)]
// What follows from the rules, for proofs of code and for theorems: specs only.
