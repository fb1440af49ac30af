// The store of 64 bytes: what is saved in it, loads from it, and what a save, a load word or LSS 17h leaves in it.
#![tactic(auto)]

pub mod saved; // the records of a good store
pub mod load; // a group or the address at a load
pub mod write; // the image anew
