// A percentage, 0 to 100.
ghost use Rattle.std.specs.Prelude.{◌≡◌, ◌<◌, ◌≤◌, Some, MatchResult};
ghost use Rattle.estimate.specs.Percent.{no_percent_text};

use std::error::Error;
use std::fmt;

#[derive(Clone, Copy)]
pub struct Percent {
    value: u8,
    ghost whole: { value ≤ 100 },
}

// This number is over 100.
#[derive(Clone, Copy, PartialEq, Eq, Debug)]
pub struct NoPercent(pub u8);

// The percentage of a value, refused over 100.
impl TryFrom<u8> for Percent {
    type Error = NoPercent;

    ghost try_from_gives = { λ value r. MatchResult r (λ p. p.value ≡ value) (λ e. (100 < value) × (e.0 ≡ value)) };

    fn try_from(value: u8) -> Result<Percent, NoPercent> {
        if value > 100 {
            return Err(NoPercent(value));
        }
        Ok(Percent { value })
    }
}

impl Percent {
    // Its value: what the field has, with the bound that callers use.
    pub fn value(self) -> u8
        ensures told { result ≡ self.value }
        ensures most { result ≤ 100 }
    {
        self.value
    }
}

impl fmt::Display for NoPercent {
    ghost output = { λ e. Some (no_percent_text e.0) };

    fn fmt<W: fmt::Write>(&self, f: &mut fmt::Formatter<W>) -> fmt::Result {
        write!(f, "{} is over 100 percent", self.0)
    }
}

impl Error for NoPercent {}
