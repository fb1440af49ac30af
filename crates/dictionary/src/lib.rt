// The object dictionary: what stands at an index and sub, what an entry reads as, and the checks of a write.
#![tactic(auto)]

pub mod objects; // every object and sub
pub mod content; // what an entry reads as
pub mod abort; // why a request is refused
pub mod write; // the write checks
