//! What every refused call answers with: a number, its detail and the layer it began in.
#![tactic(auto)]

pub mod layer;
pub mod refusal;
