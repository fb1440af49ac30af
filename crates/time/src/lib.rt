// Time: the timers and their restarts, the frames that go out by themselves, SYNC, remote frames and samples.
#![tactic(auto)]

pub mod restarts; // a timer starts anew
pub mod frames; // the present reading, and the frames that tell it
pub mod tick; // what is due at a tick
pub mod sync; // a TPDO outside its timer: at a SYNC, after a sample, for a remote frame
