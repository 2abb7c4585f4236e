// The refusal of a kind that cannot build a value from the parts it was given.
ghost use Rattle.std.specs.Prelude.{◌≡◌, Some};
ghost use Rattle.value.specs.Fault.{told, fault_text};

use refusal::layer::Layer;
use refusal::refusal::Refusal;
use std::error::Error;
use std::fmt;

#[derive(Clone, Copy, PartialEq, Eq, Debug)]
pub enum ValueFault {
    // no value has these parts; how many there were
    NoValue(u64),
}

// Number 6, the number of parts given, layer 1.
impl From<ValueFault> for Refusal {
    ghost from_gives = { λ fault r. r ≡ told fault };

    fn from(fault: ValueFault) -> Refusal {
        let ValueFault::NoValue(given) = fault;
        Refusal {
            number: 6,
            detail: given,
            layer: Layer::Data,
        }
    }
}

impl fmt::Display for ValueFault {
    ghost output = { λ fault. Some (fault_text fault) };

    fn fmt<W: fmt::Write>(&self, f: &mut fmt::Formatter<W>) -> fmt::Result {
        let ValueFault::NoValue(given) = *self;
        write!(f, "no value has these {given} parts")
    }
}

impl Error for ValueFault {}
