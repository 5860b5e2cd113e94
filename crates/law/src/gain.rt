// A law's gain, in thousandths.
ghost use Rattle.std.specs.Prelude.{◌≡◌, ◌*◌, ◌^◌, ◌<◌, ◌≤◌, pos, ◌*ℤ◌, unsigned_abs};
ghost use Rattle.std.specs.Int.Signed.{mag};
ghost use Rattle.law.specs.Gain.{GainFrom};

use crate::fault::LawFault;

#[derive(Clone, Copy)]
pub(crate) struct Gain {
    pub(crate) thousandths: u16,
}

impl TryFrom<i32> for Gain {
    type Error = LawFault;

    ghost try_from_gives = { GainFrom };

    fn try_from(number: i32) -> Result<Gain, LawFault> {
        match number {
            0..=10_000 => Ok(Gain {
                thousandths: number as u16,
            }),
            _ => Err(LawFault::NumberOutOfRange),
        }
    }
}

impl Gain {
    // Thousandths of what the gain makes of a number.
    pub(crate) fn times(self, number: i32) -> i64
        ensures value { result ≡ pos self.thousandths *ℤ number }
        ensures bound { unsigned_abs result ≤ 65536 * unsigned_abs number }
        ensures fits { mag result < 2 ^ 57 }
    {
        i64::from(self.thousandths) * i64::from(number)
    }
}
