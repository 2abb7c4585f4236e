// The refusal of a memory that has no cell at the place asked for.
ghost use Rattle.std.specs.Prelude.{◌≡◌, Some};
ghost use Rattle.memory.specs.Fault.{told, fault_text};

use refusal::layer::Layer;
use refusal::refusal::Refusal;
use std::error::Error;
use std::fmt;

#[derive(Clone, Copy, PartialEq, Eq, Debug)]
pub enum MemoryFault {
    // the place lies at or past the count of cells
    PastEnd(u32),
}

// Number 23, the place asked for, layer 1.
impl From<MemoryFault> for Refusal {
    ghost from_gives = { λ fault r. r ≡ told fault };

    fn from(fault: MemoryFault) -> Refusal {
        let MemoryFault::PastEnd(place) = fault;
        Refusal {
            number: 23,
            detail: u64::from(place),
            layer: Layer::Data,
        }
    }
}

impl fmt::Display for MemoryFault {
    ghost output = { λ fault. Some (fault_text fault) };

    fn fmt<W: fmt::Write>(&self, f: &mut fmt::Formatter<W>) -> fmt::Result {
        let MemoryFault::PastEnd(place) = *self;
        write!(f, "there is no cell at place {place}")
    }
}

impl Error for MemoryFault {}
