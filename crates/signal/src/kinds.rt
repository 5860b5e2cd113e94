// The types that carry their ranges. A ghost field is a fact that holds of every value of its type.
ghost use Rattle.std.specs.Prelude.{pos, negsuc, ◌≤ℤ◌};

// Thousandths of a percent of span, from -1,000,000 to 1,000,000.
#[derive(Clone, Copy, Debug, PartialEq, Eq, PartialOrd, Ord)]
pub struct Value {
    pub(crate) raw: i32,
    ghost low: { negsuc 999999 ≤ℤ raw },
    ghost high: { raw ≤ℤ pos 1000000 },
}

// Where a loop stands: setpoint, process value and output.
#[derive(Clone, Copy)]
pub struct OperatingPoint {
    pub sp: Value,
    pub pv: Value,
    pub out: Value,
}

// Two ends, the lower one first.
#[derive(Clone, Copy)]
pub struct Limits {
    pub(crate) low: Value,
    pub(crate) high: Value,
    ghost ordered: { low.raw ≤ℤ high.raw },
}
