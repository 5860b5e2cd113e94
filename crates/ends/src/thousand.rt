// A number from 1 to 1,000: a fault time in rounds, or a travel in thousandths of a percent of span.
ghost use Rattle.std.specs.Prelude.{◌≡◌, ◌≤◌, pos, MatchResult};
ghost use Rattle.block.specs.declared.fault.EndFault.TheVariants.{BadTime};
ghost use Rattle.ends.specs.Thousand.{GoodTime};

use block::EndFault;

#[derive(Clone, Copy)]
pub struct Thousand {
    pub(crate) number: u16,
    ghost least: { 1 ≤ number },
    ghost most: { number ≤ 1000 },
}

// Why a number is not from 1 to 1,000. What is made of it has the number of the fault.
#[derive(Clone, Copy, Debug)]
pub enum ThousandFault {
    OutOfRange,
}

impl Thousand {
    pub fn get(self) -> u16
        ensures { result ≡ self.number }
    {
        self.number
    }
}

impl TryFrom<i32> for Thousand {
    type Error = ThousandFault;

    ghost try_from_gives = { λ z r. MatchResult r (λ t. (pos t.number ≡ z) × GoodTime z) (λ _. GoodTime z → ⊥) };

    fn try_from(raw: i32) -> Result<Thousand, ThousandFault> {
        match raw {
            1..=1_000 => Ok(Thousand { number: raw as u16 }),
            _ => Err(ThousandFault::OutOfRange),
        }
    }
}

impl From<ThousandFault> for EndFault {
    ghost from_gives = { λ f r. r ≡ BadTime };

    fn from(f: ThousandFault) -> EndFault {
        match f {
            ThousandFault::OutOfRange => EndFault::BadTime,
        }
    }
}
