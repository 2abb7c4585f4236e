// A number: one part of 64 bits.
ghost use Rattle.value.specs.Kind.{widest};
ghost use Rattle.value.specs.Number.{number_parts, number_of};
ghost use Rattle.std.proofs.Common.{rules};

use crate::fault::ValueFault;
use crate::kind::Kind;

#[derive(Clone, Copy, PartialEq, Eq, Debug)]
pub struct Number {
    pub amount: u64,
}

impl Kind for Number {
    ghost SIZE = { 1 };

    ghost LIMIT = { widest 64 };

    const SIZE: usize = 1;

    const LIMIT: u64 = u64::MAX;

    ghost parts = { number_parts };

    ghost value = { number_of };

    ghost few = { Prim.search rules };

    ghost sized = { Prim.search rules };

    ghost kept = { Prim.search rules };

    ghost again = { Prim.search rules };

    ghost same = { Prim.search rules };

    ghost narrow = { Prim.search rules };

    fn part(self, index: usize) -> Option<u64> {
        match index {
            0 => Some(self.amount),
            _ => None,
        }
    }

    fn build(given: &[u64]) -> Result<Number, ValueFault> {
        match given {
            [amount] => Ok(Number { amount: *amount }),
            _ => Err(ValueFault::NoValue(given.len() as u64)),
        }
    }
}

#[cfg(test)]
mod tests {
    use super::*;
    use std::test::Fail;

    #[test]
    fn one_part_of_64_bits_builds(rt: HostRuntime) -> Result<(), Fail> {
        let number = Number::build(&[u64::MAX])?;
        assert_eq!(rt; number.part(0), Some(u64::MAX));
        assert_eq!(rt; number.part(1), None);
        assert_eq!(rt; Number::build(&[]), Err(ValueFault::NoValue(0)));
        assert_eq!(rt; Number::build(&[1, 2]), Err(ValueFault::NoValue(2)));
        Ok(())
    }
}
