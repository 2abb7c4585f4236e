// A stock record: how many sheets of a paper are on hand, how many of them are promised, and what a
// sheet costs. Three parts of 32 bits. The fields are private, so that only building makes a record,
// and every built one has promised at most on hand.
ghost use Rattle.std.specs.Prelude.{◌≡◌, ◌≤◌, length, Some, IfOk};
ghost use Rattle.value.specs.Kind.{built, widest};
ghost use Rattle.value.specs.StockRecord.{stock_parts, stock_of, stock_text, cents_text};
ghost use Rattle.std.proofs.Common.{rules};

use crate::fault::ValueFault;
use crate::kind::Kind;
use std::fmt;

#[derive(Clone, Copy, PartialEq, Eq, Debug)]
pub struct StockRecord {
    on_hand: u32,
    promised: u32,
    // in hundredths of a cent
    price: u32,
}

impl StockRecord {
    // Sheets on hand.
    pub fn on_hand(self) -> u32
        ensures { result ≡ self.on_hand }
    {
        self.on_hand
    }

    // Sheets promised, of those on hand.
    pub fn promised(self) -> u32
        ensures { result ≡ self.promised }
    {
        self.promised
    }

    // The price of a sheet, in hundredths of a cent.
    pub fn price(self) -> u32
        ensures { result ≡ self.price }
    {
        self.price
    }
}

impl Kind for StockRecord {
    ghost SIZE = { 3 };

    ghost LIMIT = { widest 32 };

    const SIZE: usize = 3;

    // A cast, since a constant cannot call `From`.
    const LIMIT: u64 = u32::MAX as u64;

    ghost parts = { stock_parts };

    ghost value = { stock_of };

    ghost few = { Prim.search rules };

    ghost sized = { Prim.search rules };

    ghost kept = { Prim.search rules };

    ghost again = { Prim.search rules };

    ghost same = { Prim.search rules };

    ghost narrow = { Prim.search rules };

    fn part(self, index: usize) -> Option<u64> {
        let parts = [self.on_hand, self.promised, self.price];
        parts.get(index).copied().map(u64::from)
    }

    // A built record has promised at most on hand.
    fn build(given: &[u64]) -> Result<StockRecord, ValueFault>
        ensures answer { result ≡ built (stock_of given.now) (length given.now) }
        ensures backed { IfOk result (λ x. x.promised ≤ x.on_hand) }
    {
        let refused = ValueFault::NoValue(given.len() as u64);
        let [on_hand, promised, price] = given else {
            return Err(refused);
        };
        if promised > on_hand {
            return Err(refused);
        }
        let narrowed = |part: u64| u32::try_from(part).map_err(|_| refused);
        Ok(StockRecord {
            on_hand: narrowed(*on_hand)?,
            promised: narrowed(*promised)?,
            price: narrowed(*price)?,
        })
    }
}

impl fmt::Display for StockRecord {
    ghost output = { λ x. Some (stock_text x) };

    fn fmt<W: fmt::Write>(&self, f: &mut fmt::Formatter<W>) -> fmt::Result {
        let StockRecord {
            on_hand,
            promised,
            price,
        } = *self;
        let cents = Cents(price);
        write!(
            f,
            "{on_hand} sheets on hand, {promised} promised, {cents} cents a sheet"
        )
    }
}

// A price in hundredths of a cent, printed in cents. Digit by digit, since the text is then stated by digits, where
// `{:02}` states it by the library's rules of padding.
#[derive(Clone, Copy)]
struct Cents(u32);

impl fmt::Display for Cents {
    ghost output = { λ price. Some (cents_text price.0) };

    fn fmt<W: fmt::Write>(&self, f: &mut fmt::Formatter<W>) -> fmt::Result {
        let Cents(price) = *self;
        let cents = price / 100;
        let tenths = price / 10 % 10;
        let hundredths = price % 10;
        write!(f, "{cents}.{tenths}{hundredths}")
    }
}

#[cfg(test)]
mod tests {
    use super::*;
    use refusal::layer::Layer;
    use refusal::refusal::Refusal;
    use std::test::Fail;

    #[test]
    fn promised_is_at_most_on_hand(rt: HostRuntime) -> Result<(), Fail> {
        let full = StockRecord::build(&[5, 5, 0])?;
        assert_eq!(rt; full.part(1), Some(5));
        assert_eq!(rt; full.part(3), None);
        assert_eq!(rt; StockRecord::build(&[5, 6, 0]), Err(ValueFault::NoValue(3)));
        Ok(())
    }

    #[test]
    fn wide_parts_and_other_counts_are_refused(rt: HostRuntime) {
        assert!(rt; StockRecord::build(&[4_294_967_295, 0, 4_294_967_295]).is_ok());
        assert!(rt; StockRecord::build(&[4_294_967_296, 0, 0]).is_err());
        assert!(rt; StockRecord::build(&[5, 4_294_967_296, 0]).is_err());
        assert!(rt; StockRecord::build(&[5, 5, 4_294_967_296]).is_err());
        assert_eq!(rt; StockRecord::build(&[5, 5]), Err(ValueFault::NoValue(2)));
        assert_eq!(rt;
            StockRecord::build(&[5, 5, 0, 0]),
            Err(ValueFault::NoValue(4))
        );
    }

    #[test]
    fn a_refusal_tells_number_detail_and_layer(rt: HostRuntime) {
        let told = Refusal {
            number: 6,
            detail: 4,
            layer: Layer::Data,
        };
        assert_eq!(rt; Refusal::from(ValueFault::NoValue(4)), told);
    }
}
