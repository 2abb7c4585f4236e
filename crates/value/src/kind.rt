// What a kind of value is: how many parts its values have, what they are, and which parts make a value.
ghost use Rattle.std.specs.Prelude.{◌≡◌, ℕ, ◌^◌, ◌<◌, ◌≤◌, List, length, slice_get, All, Some, None, Option, MatchOption};
ghost use Rattle.value.specs.Kind.{built};

use crate::fault::ValueFault;

pub trait Kind: Copy {
    // how many parts a value has
    ghost SIZE: { ℕ };

    // the largest number that a part may be
    ghost LIMIT: { ℕ };

    // the parts of a value
    ghost parts: { Self → List ℕ };

    // the value that has these parts, where the kind has one
    ghost value: { List ℕ → Option Self };

    const SIZE: usize;

    const LIMIT: u64;

    // The part at an index, or none past the last.
    fn part(self, index: usize) -> Option<u64>
        ensures { result ≡ slice_get (parts self) index };

    // The value with these parts, or a refusal with how many they were.
    fn build(given: &[u64]) -> Result<Self, ValueFault>
        ensures { result ≡ built (value given.now) (length given.now) };

    // a value has one to four parts, and the limit of a part is at most 64 bits
    ghost few: { (1 ≤ SIZE) × (SIZE ≤ 4) × (LIMIT < 2 ^ 64) };

    // a value's parts are as many as the kind tells
    ghost sized: { (x : Self) → length (parts x) ≡ SIZE };

    // the parts of a built value are the parts given
    ghost kept: { (ps : List ℕ) (x : Self) → value ps ≡ Some x → parts x ≡ ps };

    // building from a built value's parts gives that value
    ghost again: { (ps : List ℕ) (x : Self) → value ps ≡ Some x → value (parts x) ≡ Some x };

    // values with the same parts are the same value
    ghost same: { (x y : Self) → parts x ≡ parts y → x ≡ y };

    // no part of a built value is over the limit
    ghost narrow: { (ps : List ℕ) (x : Self) → value ps ≡ Some x → All (λ p. p ≤ LIMIT) ps };
}

#[cfg(test)]
mod tests {
    use super::*;
    use crate::number::Number;
    use crate::stock_record::StockRecord;

    // Builds a value and gives one of its parts. That it is the part given follows for every kind from
    // the laws alone.
    fn part_back<K: Kind>(given: &[u64], index: usize) -> Option<u64>
        ensures { MatchOption (K.Kind.value given.now) (result ≡ None) (λ _. result ≡ slice_get given.now index) }
    {
        match K::build(given) {
            Ok(value) => value.part(index),
            Err(_) => None,
        }
    }

    #[test]
    fn parts_of_a_built_value_are_those_given(rt: HostRuntime) {
        assert_eq!(rt; part_back::<Number>(&[77], 0), Some(77));
        assert_eq!(rt; part_back::<StockRecord>(&[9, 8, 7], 1), Some(8));
        assert_eq!(rt; part_back::<StockRecord>(&[8, 9, 7], 1), None);
    }
}
