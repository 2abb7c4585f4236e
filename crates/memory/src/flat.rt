// The flat memory: the caller's cells, lent. Of more than 1,048,576 cells those past that number are
// not part of it and are never touched.
ghost use Rattle.std.specs.Prelude.{◌≡◌, slice_set};
ghost use Rattle.memory.specs.Cells.{counted, beyond, stored};

use crate::fault::MemoryFault;
use crate::memory::{MOST_CELLS, Memory};

#[derive(Drop)]
pub struct Flat<'a, V> {
    pub cells: &'a mut [V],
}

impl<'a, V: Copy> Memory for Flat<'a, V> {
    type Value = V;

    ghost cells = { λ m. counted m.cells.now };

    fn count(&self) -> u32 {
        self.cells.len().min(MOST_CELLS as usize) as u32
    }

    fn load(&self, place: u32) -> Result<V, MemoryFault> {
        self.cells[..self.count() as usize]
            .get(place as usize)
            .copied()
            .ok_or(MemoryFault::PastEnd(place))
    }

    // Cells past the count stay as they are, and the memory stays on the cells that it was lent.
    fn store(&mut self, place: u32, value: V) -> Result<(), MemoryFault>
        ensures answer { result ≡ stored (counted self.old.cells.now) place }
        ensures after { counted self.new.cells.now ≡ slice_set (counted self.old.cells.now) place value }
        ensures rest { beyond self.new.cells.now ≡ beyond self.old.cells.now }
        ensures lender { self.new.cells.ghost_name ≡ self.old.cells.ghost_name }
    {
        if place >= self.count() {
            return Err(MemoryFault::PastEnd(place));
        }
        self.cells[place as usize] = value;
        Ok(())
    }
}

#[cfg(test)]
mod tests {
    use super::*;
    use std::test::Fail;

    #[test]
    fn the_last_cell_is_below_the_count(rt: HostRuntime) {
        let mut cells = [7u8, 8, 9];
        let mut memory = Flat { cells: &mut cells };
        assert_eq!(rt; memory.count(), 3);
        assert_eq!(rt; memory.load(2), Ok(9));
        assert_eq!(rt; memory.load(3), Err(MemoryFault::PastEnd(3)));
        assert_eq!(rt; memory.store(2, 5), Ok(()));
        assert_eq!(rt; memory.store(3, 5), Err(MemoryFault::PastEnd(3)));
        assert_eq!(rt; cells, [7, 8, 5]);
    }

    #[test]
    fn no_cells_have_no_place(rt: HostRuntime) {
        let mut cells = [0u8; 0];
        let memory = Flat { cells: &mut cells };
        assert_eq!(rt; memory.count(), 0);
        assert_eq!(rt; memory.load(0), Err(MemoryFault::PastEnd(0)));
    }

    #[test]
    fn cells_past_the_most_stay(rt: HostRuntime) -> Result<(), Fail> {
        let mut cells = vec![in rt.alloc(); 1u8; 1_048_577]?;
        let mut memory = Flat {
            cells: cells.as_mut_slice(),
        };
        assert_eq!(rt; memory.count(), 1_048_576);
        assert_eq!(rt; memory.store(1_048_575, 2), Ok(()));
        assert_eq!(rt;
            memory.store(1_048_576, 2),
            Err(MemoryFault::PastEnd(1_048_576))
        );
        assert_eq!(rt; cells.get(1_048_575).copied(), Some(2));
        assert_eq!(rt; cells.get(1_048_576).copied(), Some(1));
        Ok(())
    }
}
