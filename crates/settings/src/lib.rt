// The saved parameters: their values, the table, and what a write or a load word does to them.
#![tactic(auto)]

pub mod values; // a value and its type, as a number and as bytes
pub mod table; // the table of the saved parameters, row by row
pub mod change; // a write and a load word
