#![tactic(auto)]
// The theorems of demand 3 about the run: specs only.
