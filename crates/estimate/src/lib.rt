//! What an order for copies of a score costs, and how the paper for it is promised in the price book.
#![tactic(auto)]

pub mod book;
pub mod fault;
pub mod order;
pub mod percent;
pub mod quote;
