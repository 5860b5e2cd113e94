// Values from numbers: one that is out of range is refused, or pulled in.
ghost use Rattle.std.specs.Prelude.{◌≡◌, pos, negsuc, IfOk};
ghost use Rattle.signal.specs.Nearest.{Nearest};
ghost use Rattle.signal.specs.Value.{value_fault_number, ValueFrom, value_near};

use crate::kinds::{Limits, Value};
use crate::numbered::Numbered;

// The ends of the range, in thousandths of a percent of span.
pub(crate) const LEAST: i32 = -1_000_000;

pub(crate) const GREATEST: i32 = 1_000_000;

// Why a number is no value.
#[derive(Clone, Copy, Debug, PartialEq, Eq)]
pub enum ValueFault {
    OutOfRange = 2,
}

impl Numbered for ValueFault {
    ghost number_of = { value_fault_number };

    fn number(self) -> u8 {
        self as u8
    }
}

impl TryFrom<i32> for Value {
    type Error = ValueFault;

    ghost try_from_gives = { λ raw r. ValueFrom raw r × IfOk r (λ v. v ≡ value_near raw) };

    fn try_from(raw: i32) -> Result<Value, ValueFault> {
        match raw {
            LEAST..=GREATEST => Ok(Value { raw }),
            _ => Err(ValueFault::OutOfRange),
        }
    }
}

impl Value {
    pub const ZERO: Value = Value { raw: 0 };

    // Any number that widens to 64 bits: a law's sum is wider than a value.
    pub fn pulled_in<N: Into<i64>>(raw: N) -> Value
        ensures { (z : _) × N.converts raw z × Nearest (negsuc 999999) (pos 1000000) z result.raw × (result ≡ value_near z) }
    {
        Limits::RANGE.nearest(raw.into())
    }

    pub fn raw(self) -> i32
        ensures { result ≡ self.raw }
    {
        self.raw
    }
}
