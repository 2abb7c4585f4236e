// The joined memory: the cells of a second memory behind those of a first, up to 1,048,576 in all.
ghost use Rattle.std.specs.Prelude.{◌≡◌, ◌-◌, ◌<◌, ◌≤◌, ◌++◌, length, slice_set, IfOk, IfErr, SomeIff};
ghost use Rattle.memory.specs.Cells.{counted, beyond, stored};
ghost use Rattle.memory.specs.declared.fault.MemoryFault.TheVariants.{PastEnd};

use crate::fault::MemoryFault;
use crate::memory::{MOST_CELLS, Memory};

#[derive(Drop)]
pub struct Joined<A, B> {
    pub first: A,
    pub second: B,
}

impl<A: Memory, B: Memory<Value = A::Value>> Memory for Joined<A, B> {
    type Value = A::Value;

    ghost cells = { λ m. counted (A.cells m.first ++ B.cells m.second) };

    fn count(&self) -> u32 {
        (self.first.count() + self.second.count()).min(MOST_CELLS)
    }

    fn load(&self, place: u32) -> Result<A::Value, MemoryFault> {
        match self.place_in_second(place)? {
            None => self.first.load(place),
            Some(inner) => self.second.load(inner),
        }
    }

    // Cells of the two memories past the count stay as they are, and each keeps as many as it had.
    fn store(&mut self, place: u32, value: A::Value) -> Result<(), MemoryFault>
        ensures answer { result ≡ stored (⟦<Self as Memory>⟧.cells self.old) place }
        ensures after { ⟦<Self as Memory>⟧.cells self.new ≡ slice_set (⟦<Self as Memory>⟧.cells self.old) place value }
        ensures rest { beyond (A.cells self.new.first ++ B.cells self.new.second)
            ≡ beyond (A.cells self.old.first ++ B.cells self.old.second) }
        ensures seam { length (A.cells self.new.first) ≡ length (A.cells self.old.first) }
    {
        match self.place_in_second(place)? {
            None => self.first.store(place, value),
            Some(inner) => self.second.store(inner, value),
        }
    }
}

impl<A: Memory, B: Memory<Value = A::Value>> Joined<A, B> {
    // Where in the second memory the cell at a place lies, or `None` where the first has it.
    // Refused at or past the count, with the place that was asked for.
    fn place_in_second(&self, place: u32) -> Result<Option<u32>, MemoryFault>
        ensures ok { IfOk result (λ inner. (place < length (⟦<Self as Memory>⟧.cells self.now))
            × SomeIff inner (length (A.cells self.now.first) ≤ place) (place - length (A.cells self.now.first))) }
        ensures err { IfErr result (λ fault. (length (⟦<Self as Memory>⟧.cells self.now) ≤ place)
            × (fault ≡ PastEnd place)) }
    {
        if place >= self.count() {
            return Err(MemoryFault::PastEnd(place));
        }
        Ok(place.checked_sub(self.first.count()))
    }
}

#[cfg(test)]
mod tests {
    use super::*;
    use crate::flat::Flat;
    use std::test::Fail;

    #[test]
    fn the_second_follows_the_first(rt: HostRuntime) {
        let mut front = [1u8, 2];
        let mut back = [3u8];
        let mut both = Joined {
            first: Flat { cells: &mut front },
            second: Flat { cells: &mut back },
        };
        assert_eq!(rt; both.count(), 3);
        assert_eq!(rt; both.load(1), Ok(2));
        assert_eq!(rt; both.load(2), Ok(3));
        assert_eq!(rt; both.load(3), Err(MemoryFault::PastEnd(3)));
        assert_eq!(rt; both.store(2, 9), Ok(()));
        assert_eq!(rt; both.store(4, 9), Err(MemoryFault::PastEnd(4)));
        assert_eq!(rt; back, [9]);
    }

    #[test]
    fn it_stops_at_the_most(rt: HostRuntime) -> Result<(), Fail> {
        let mut front = vec![in rt.alloc(); 1u8; 1_048_575]?;
        let mut back = [2u8, 3];
        let mut both = Joined {
            first: Flat {
                cells: front.as_mut_slice(),
            },
            second: Flat { cells: &mut back },
        };
        assert_eq!(rt; both.count(), 1_048_576);
        assert_eq!(rt; both.load(1_048_575), Ok(2));
        assert_eq!(rt;
            both.store(1_048_576, 9),
            Err(MemoryFault::PastEnd(1_048_576))
        );
        assert_eq!(rt; back, [2, 3]);
        Ok(())
    }
}
