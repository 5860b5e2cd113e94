// A law's sum divided by 1,000 and rounded down.
ghost use Rattle.std.specs.Prelude.{◌≡◌, ◌+ℤ◌};
ghost use Rattle.signal.specs.Value.{value_near};
ghost use Rattle.law.specs.Quotient.{Floored, OneQuotient, whole_of, rest_of};

use signal::Value;

#[derive(Clone, Copy)]
pub struct Quotient {
    pub whole: i64,
    pub rest: u16,
}

// The only place where a law's quotient is taken.
pub fn floored(t: i64) -> Quotient
    ensures floored { Floored t result.whole result.rest }
    ensures whole { result.whole ≡ whole_of t }
    ensures rest { result.rest ≡ rest_of t }
    ensures only { OneQuotient }
{
    Quotient {
        whole: t.div_euclid(1_000),
        rest: t.rem_euclid(1_000) as u16,
    }
}

impl Quotient {
    // Only the answer is pulled in. A sum past 64 bits is past the range of values too.
    pub(crate) fn added_to(self, out: Value) -> Value
        ensures { result ≡ value_near (out.raw +ℤ self.whole) }
    {
        Value::pulled_in(i64::from(out.raw()).saturating_add(self.whole))
    }
}
