// A refusal, as it is carried up whole from where it began.
ghost use Rattle.std.specs.Prelude.{Some};
ghost use Rattle.refusal.specs.Texts.{refusal_text};

use crate::layer::Layer;
use std::fmt;

#[derive(Clone, Copy, PartialEq, Eq, Debug)]
pub struct Refusal {
    // which rule refused; a number, since its rules are cases of the faults of all crates above, each an enum there
    pub number: u8,
    // what the rule names: a place, a slot, a count
    pub detail: u64,
    // where it began
    pub layer: Layer,
}

impl fmt::Display for Refusal {
    ghost output = { λ r. Some (refusal_text r) };

    fn fmt<W: fmt::Write>(&self, f: &mut fmt::Formatter<W>) -> fmt::Result {
        let layer = u8::from(self.layer);
        write!(f, "{} {}, layer {layer}", self.number, self.detail)
    }
}
