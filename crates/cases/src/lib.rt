//! Computed cases beside the definitions of `model`: the edges and the refusals of the plain engine, seven broken
//! engines that break the law, each by a short list of calls, and an order of the jobs that would be no serial
//! order. The contracts of the functions say so; there is nothing here to run but the tests of what answers and
//! refusals tell.
#![tactic(auto)]

pub mod broken;
pub mod edges;
pub mod order;
pub mod told;
