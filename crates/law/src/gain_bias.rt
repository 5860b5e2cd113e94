// The gain and bias law: a gain on the setpoint, and a bias that is set at the start.
ghost use Rattle.std.specs.Prelude.{◌≡◌, ◌^◌, ◌<◌, ◌+ℤ◌, unsigned_abs};
ghost use Rattle.signal.specs.Value.{value_near};
ghost use Rattle.law.specs.GainBias.{GainBiasFrom, gained_by, gain_bias_model};
ghost use Rattle.law.specs.Starting.{gain_bias_meaning};

use crate::fault::LawFault;
use crate::gain::Gain;
use crate::law::Law;
use crate::quotient::floored;
use signal::{OperatingPoint, Value};

#[derive(Drop)]
pub struct GainBias {
    gain: Gain,
    bias: i32,
}

impl GainBias {
    // A law that was just made is as one started at 0, 0 and 0.
    pub fn new(gain: i32) -> Result<GainBias, LawFault>
        ensures { GainBiasFrom gain result }
    {
        Ok(GainBias {
            gain: Gain::try_from(gain)?,
            bias: 0,
        })
    }

    // The setpoint times the gain, rounded down.
    fn gained(&self, sp: Value) -> i32
        ensures value { result ≡ gained_by self.now sp }
        ensures bound { unsigned_abs result < 2 ^ 30 }
    {
        floored(self.gain.times(sp.raw())).whole as i32
    }

    fn answer(&self, sp: Value) -> Value
        ensures { result ≡ value_near (gained_by self.now sp +ℤ self.now.bias) }
    {
        Value::pulled_in(i64::from(self.gained(sp)) + i64::from(self.bias))
    }
}

impl Law for GainBias {
    ghost model = { gain_bias_model };

    ghost meaning = { gain_bias_meaning };

    // The bias is not pulled in: at the ends of the range the first answer would not be the output.
    fn start(&mut self, at: OperatingPoint) {
        self.bias = at.out.raw() - self.gained(at.sp);
    }

    fn step(&mut self, at: OperatingPoint) -> Value {
        self.answer(at.sp)
    }
}
