// The figures of a quote. A sheet is folded once and holds four pages; spoilt sheets are paid for and
// not folded. Prices are in hundredths of a cent, the total in cents.
ghost use Rattle.std.specs.Prelude.{◌≡◌, ◌*◌, ◌/◌, ◌≤◌};
ghost use Rattle.estimate.specs.Quote.{quoted, sheets_needed, Fair};
ghost use Rattle.std.specs.Int.{div_ceil};

use crate::order::Order;
use crate::percent::Percent;

#[derive(Clone, Copy, PartialEq, Eq, Debug)]
pub struct Quote {
    // sheets that the copies need
    pub needed: u32,
    // sheets more, for those that printing spoils
    pub spoilt: u32,
    // price of all these sheets
    pub paper: u64,
    // price of folding those that are needed
    pub folding: u64,
    // taken off both
    pub discount: u64,
    // what is left to pay, in cents
    pub cents: u64,
}

impl Order {
    // The figures of the order, at this price of a sheet.
    pub fn estimate(self, price: u32) -> Quote
        ensures figures { result ≡ quoted self price }
        ensures fair { Fair self result }
    {
        let terms = self.terms;
        let needed = self.needed_sheets();
        let spoilt = spoilt_sheets(needed, terms.wastage);
        let paper = price_of(needed + spoilt, price);
        let folding = price_of(needed, terms.fold);
        let discount = if self.copies >= terms.large {
            share(paper + folding, terms.discount)
        } else {
            0
        };
        let cents = (paper + folding - discount + 50) / 100;
        Quote {
            needed,
            spoilt,
            paper,
            folding,
            discount,
            cents,
        }
    }

    // The sheets of all copies: at most 65,535 copies of 16,384 sheets.
    fn needed_sheets(self) -> u32
        ensures value { result ≡ sheets_needed self }
        ensures bound { result ≤ 1073725440 }
    {
        u32::from(self.copies) * sheets_a_copy(self.pages)
    }
}

// The fewest sheets of four pages that hold a copy's pages.
fn sheets_a_copy(pages: u16) -> u32
    ensures value { result ≡ div_ceil pages 4 }
    ensures bound { result ≤ 16384 }
{
    u32::from(pages).div_ceil(4)
}

// A share of the sheets, a part of a sheet counted as a sheet.
fn spoilt_sheets(needed: u32, wastage: Percent) -> u32
    ensures value { result ≡ div_ceil (needed * wastage.value) 100 }
    ensures bound { result ≤ needed }
{
    (u64::from(needed) * u64::from(wastage.value())).div_ceil(100) as u32
}

// A share of a price, a part of a hundredth of a cent left out.
fn share(price: u64, percent: Percent) -> u64
    ensures value { result ≡ (price * percent.value) / 100 }
    ensures bound { result ≤ price }
{
    (u128::from(price) * u128::from(percent.value()) / 100) as u64
}

// Sheets at so much a sheet, which is at most 4,294,967,295.
fn price_of(sheets: u32, each: u32) -> u64
    ensures value { result ≡ sheets * each }
    ensures bound { result ≤ sheets * 4294967295 }
{
    u64::from(sheets) * u64::from(each)
}

#[cfg(test)]
mod tests {
    use super::*;
    use crate::order::Terms;
    use std::test::Fail;

    fn terms(wastage: u8, fold: u32, discount: u8, large: u16) -> Result<Terms, Fail> {
        Ok(Terms {
            wastage: Percent::try_from(wastage)?,
            fold,
            discount: Percent::try_from(discount)?,
            large,
        })
    }

    fn order(copies: u16, pages: u16, terms: Terms) -> Order {
        Order {
            copies,
            pages,
            paper: 0,
            terms,
        }
    }

    #[test]
    fn sheets_and_wastage_are_rounded_up(rt: HostRuntime) -> Result<(), Fail> {
        let terms = terms(5, 0, 0, 1)?;
        let quote = order(3, 5, terms).estimate(1);
        assert_eq!(rt; quote.needed, 6);
        assert_eq!(rt; quote.spoilt, 1);
        assert_eq!(rt; order(3, 4, terms).estimate(1).needed, 3);
        Ok(())
    }

    #[test]
    fn a_large_order_has_a_discount(rt: HostRuntime) -> Result<(), Fail> {
        let terms = terms(5, 45, 8, 50)?;
        let large = order(50, 4, terms).estimate(300);
        assert_eq!(rt; large.discount, 1_452);
        assert_eq!(rt; large.cents, 167);
        assert_eq!(rt; order(49, 4, terms).estimate(300).discount, 0);
        Ok(())
    }

    #[test]
    fn the_largest_order_fits(rt: HostRuntime) -> Result<(), Fail> {
        let terms = terms(100, u32::MAX, 100, 0)?;
        let quote = order(u16::MAX, u16::MAX, terms).estimate(u32::MAX);
        assert_eq!(rt; quote.spoilt, quote.needed);
        assert_eq!(rt; quote.cents, 0);
        Ok(())
    }
}
