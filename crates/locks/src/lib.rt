//! Lock words and lock maps. A lock word says whether a lock is free, and at which version, or held,
//! and by which slot. A lock map tells which lock guards a place: the trait `LockMap`, with the maps
//! `LineMap` and `ObjectMap`.
#![tactic(auto)]

pub mod line_map;
pub mod lock_map;
pub mod lock_word;
pub mod object_map;
