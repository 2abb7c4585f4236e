//! Memories behind one interface. The trait `Memory` says what a memory means; `Flat` works on the
//! caller's cells, `Joined` sets one memory behind another.
#![tactic(auto)]

pub mod fault;
pub mod flat;
pub mod joined;
pub mod memory;
