// Why an order is refused: the book has no such paper, or not enough of it. Either is carried up whole.
ghost use Rattle.std.specs.Prelude.{◌≡◌, Some};
ghost use Rattle.estimate.specs.declared.fault.OrderFault.TheVariants.{NoPaper, NoStock};
ghost use Rattle.estimate.specs.Fault.{told, fault_text};

use memory::fault::MemoryFault;
use refusal::refusal::Refusal;
use std::error::Error;
use std::fmt;
use value::fault::ValueFault;

#[derive(Clone, Copy, PartialEq, Eq, Debug)]
pub enum OrderFault {
    // the book has no cell at the paper's place
    NoPaper(MemoryFault),
    // no stock record promises as many sheets
    NoStock(ValueFault),
}

// The refusal as it began.
impl From<OrderFault> for Refusal {
    ghost from_gives = { λ fault r. r ≡ told fault };

    fn from(fault: OrderFault) -> Refusal {
        match fault {
            OrderFault::NoPaper(memory) => memory.into(),
            OrderFault::NoStock(value) => value.into(),
        }
    }
}

// Both by hand: a derived `From` states nothing of the fault that it makes.
impl From<MemoryFault> for OrderFault {
    ghost from_gives = { λ cause r. r ≡ NoPaper cause };

    fn from(cause: MemoryFault) -> OrderFault {
        OrderFault::NoPaper(cause)
    }
}

impl From<ValueFault> for OrderFault {
    ghost from_gives = { λ cause r. r ≡ NoStock cause };

    fn from(cause: ValueFault) -> OrderFault {
        OrderFault::NoStock(cause)
    }
}

impl fmt::Display for OrderFault {
    ghost output = { λ fault. Some (fault_text fault) };

    fn fmt<W: fmt::Write>(&self, f: &mut fmt::Formatter<W>) -> fmt::Result {
        f.write_str(match self {
            OrderFault::NoPaper(_) => "the book has no such paper",
            OrderFault::NoStock(_) => "not enough sheets are left to promise",
        })
    }
}

impl Error for OrderFault {}
