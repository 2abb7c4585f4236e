//! What the engine's steps, answers and refusals are, and in `specs/` what they mean: the plain engine, and
//! the law that every run of it keeps. `law` has the functions whose contracts are the theorems.
#![tactic(auto)]

pub mod answer;
pub mod fault;
pub mod law;
pub mod outcome;
pub mod slot_state;
pub mod step;
