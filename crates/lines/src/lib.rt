#![tactic(auto)]
// One line of a table's text, a key and a number: read, measured, written.
mod keys;
pub mod leaves;
pub mod writer;
