// The SDO server: what a request is answered, what it changes, and the upload of the name.
#![tactic(auto)]

pub mod reply; // the frames of the replies
pub mod segment; // the name by segments
pub mod serve; // a request as a whole
