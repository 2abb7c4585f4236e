//! Kinds of value: what a cell of the price book may hold. The trait `Kind` says what a kind is;
//! `Number` and `StockRecord` are the two kinds.
#![tactic(auto)]

pub mod fault;
pub mod kind;
pub mod number;
pub mod stock_record;
