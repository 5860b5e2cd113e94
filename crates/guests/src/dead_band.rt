// A third law: each step adds the error to the last output, unless the error is small.
ghost use Rattle.std.specs.Prelude.{◌≡◌, ◌+ℤ◌, ◌-ℤ◌, nat_lt, unsigned_abs};
ghost use Rattle.signal.specs.Value.{value_near};
ghost use Rattle.guests.specs.DeadBand.{dead_band_model};
ghost use Rattle.std.proofs.Common.{rules};

use law::Law;
use signal::{OperatingPoint, Value};

#[derive(Drop)]
pub struct DeadBand {
    // an error of up to this, in thousandths of a percent of span, is left alone
    pub band: u32,
}

fn error(at: OperatingPoint) -> i32
    ensures { result ≡ at.sp.raw -ℤ at.pv.raw }
{
    at.sp.raw() - at.pv.raw()
}

fn moved_by(out: Value, error: i32) -> Value
    ensures { result ≡ value_near (out.raw +ℤ error) }
{
    Value::pulled_in(i64::from(out.raw()) + i64::from(error))
}

impl DeadBand {
    fn passed(&self, error: i32) -> bool
        ensures { result ≡ nat_lt self.now.band (unsigned_abs error) }
    {
        self.band < error.unsigned_abs()
    }
}

impl Law for DeadBand {
    ghost model = { dead_band_model };

    ghost meaning = { Prim.search rules };

    fn start(&mut self, at: OperatingPoint) {}

    fn step(&mut self, at: OperatingPoint) -> Value {
        let error = error(at);
        if self.passed(error) {
            moved_by(at.out, error)
        } else {
            at.out
        }
    }
}
