// What a memory is: a list of cells, each holding a value.
ghost use Rattle.std.specs.Prelude.{◌≡◌, ◌≤◌, List, length, slice_set};
ghost use Rattle.memory.specs.Cells.{most_cells, loaded, stored};

use crate::fault::MemoryFault;

// No memory counts more cells than this.
pub const MOST_CELLS: u32 = 1_048_576;

pub trait Memory {
    type Value: Copy;

    // the values that the memory holds, by place
    ghost cells: { Self → List Self.Value };

    // How many cells there are: at most 1,048,576. It never changes, since no store changes it.
    fn count(&self) -> u32
        ensures told { result ≡ length (cells self.now) }
        ensures most { result ≤ most_cells };

    // The value of the cell at a place. Refused exactly at or past the count.
    fn load(&self, place: u32) -> Result<Self::Value, MemoryFault>
        ensures { result ≡ loaded (cells self.now) place };

    // Puts a value into the cell at a place, and touches no other. Refused exactly at or past the
    // count, and then nothing changes (`slice_set` past the end of a list gives the list).
    fn store(&mut self, place: u32, value: Self::Value) -> Result<(), MemoryFault>
        ensures answer { result ≡ stored (cells self.old) place }
        ensures after { cells self.new ≡ slice_set (cells self.old) place value };
}
