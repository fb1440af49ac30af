// What the node's parts share below the level of a service: bytes, signature, frames and time.
#![tactic(auto)]

pub mod bytes; // numbers in slices of bytes, low byte first
pub mod crc; // the CRC-16 that signs
pub mod frames; // the bytes of an event, and frames laid into the output
pub mod clock; // the clock of 1 ms ticks, and timers over it
pub mod address; // Node-IDs and bit indexes
