// What a customer orders, and the terms on which the shop sells.
use crate::percent::Percent;

#[derive(Clone, Copy)]
pub struct Order {
    // copies of the score
    pub copies: u16,
    // pages of one copy
    pub pages: u16,
    // the place of the paper in the price book
    pub paper: u32,
    // the terms that it is sold on
    pub terms: Terms,
}

#[derive(Clone, Copy)]
pub struct Terms {
    // sheets spoilt in printing, of those that are needed
    pub wastage: Percent,
    // what folding a sheet costs, in hundredths of a cent
    pub fold: u32,
    // what is taken off the price of a large order
    pub discount: Percent,
    // an order of this many copies counts as large
    pub large: u16,
}
