// Limits on a value, and the nearest value inside them.
ghost use Rattle.std.specs.Prelude.{◌≡◌, Decides};
ghost use Rattle.signal.specs.Nearest.{Nearest, OneNearest, nearest_to};
ghost use Rattle.signal.specs.declared.limits.LimitsFault.TheVariants.{BadLimits};
ghost use Rattle.signal.specs.Limits.{limits_fault_number, LimitsFrom, Inside, pulled};

use crate::kinds::{Limits, Value};
use crate::numbered::Numbered;
use crate::value::{GREATEST, LEAST, ValueFault};

// Why two numbers are no limits.
#[derive(Clone, Copy, Debug, PartialEq, Eq)]
pub enum LimitsFault {
    BadLimits = 12,
}

impl Numbered for LimitsFault {
    ghost number_of = { limits_fault_number };

    fn number(self) -> u8 {
        self as u8
    }
}

impl From<ValueFault> for LimitsFault {
    ghost from_gives = { λ _ r. r ≡ BadLimits };

    fn from(_fault: ValueFault) -> LimitsFault {
        LimitsFault::BadLimits
    }
}

impl Limits {
    pub(crate) const RANGE: Limits = Limits {
        low: Value { raw: LEAST },
        high: Value { raw: GREATEST },
    };

    pub fn new(low: i32, high: i32) -> Result<Limits, LimitsFault>
        ensures { LimitsFrom low high result }
    {
        let low = Value::try_from(low)?;
        let high = Value::try_from(high)?;
        if low <= high {
            Ok(Limits { low, high })
        } else {
            Err(LimitsFault::BadLimits)
        }
    }

    pub fn low(self) -> Value
        ensures { result ≡ self.low }
    {
        self.low
    }

    pub fn high(self) -> Value
        ensures { result ≡ self.high }
    {
        self.high
    }

    pub fn holds(self, v: Value) -> bool
        ensures { Decides result (Inside self v) }
    {
        v >= self.low && v <= self.high
    }

    pub fn pull(self, v: Value) -> Value
        ensures nearest { Nearest self.low.raw self.high.raw v.raw result.raw }
        ensures value { result ≡ pulled self v }
        ensures only { OneNearest }
    {
        self.nearest(i64::from(v.raw))
    }

    // The only place where a number is pulled into limits. It may be wider than 32 bits, as a law's sum is.
    pub(crate) fn nearest(self, raw: i64) -> Value
        ensures nearest { Nearest self.low.raw self.high.raw raw result.raw }
        ensures value { result.raw ≡ nearest_to self.low.raw self.high.raw raw }
    {
        Value {
            raw: raw.clamp(i64::from(self.low.raw), i64::from(self.high.raw)) as i32,
        }
    }
}
