// What NMT, SDO and LSS come to, but for EMCY.
#![tactic(auto)]

pub mod ask; // the change that a service makes, its reply, and the rest of the state after it
pub mod change; // the state and the store after a change
