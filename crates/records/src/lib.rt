// The records N, C and A of the store.
#![tactic(auto)]

pub mod codec; // the parameters of a group as its record, and back
pub mod accept; // which records are accepted
