// The PI law: proportional and integral gain on the error, with what the division leaves carried to the next step.
ghost use Rattle.std.specs.Prelude.{◌≡◌};
ghost use Rattle.law.specs.Pi.{ActionFrom, PiFrom, error_of, sum_at, pi_model};
ghost use Rattle.law.specs.Starting.{pi_meaning};

use crate::fault::LawFault;
use crate::gain::Gain;
use crate::law::Law;
use crate::quotient::floored;
use signal::{OperatingPoint, Value};

// Which way the error is taken: SP - PV, or PV - SP.
#[derive(Clone, Copy)]
enum Action {
    Reverse,
    Direct,
}

#[derive(Drop)]
pub struct Pi {
    p: Gain,
    i: Gain,
    action: Action,
    last_error: i32,
    rest: u16,
}

// As an end's fault action is read, but in another crate and with another fault.
impl TryFrom<u8> for Action {
    type Error = LawFault;

    ghost try_from_gives = { ActionFrom };

    fn try_from(number: u8) -> Result<Action, LawFault> {
        match number {
            0 => Ok(Action::Reverse),
            1 => Ok(Action::Direct),
            _ => Err(LawFault::NumberOutOfRange),
        }
    }
}

impl Action {
    fn error(self, at: OperatingPoint) -> i32
        ensures { result ≡ error_of self at }
    {
        match self {
            Action::Reverse => at.sp.raw() - at.pv.raw(),
            Action::Direct => at.pv.raw() - at.sp.raw(),
        }
    }
}

impl Pi {
    // A law that was just made is as one started at 0, 0 and 0.
    pub fn new(p: i32, i: i32, action: u8) -> Result<Pi, LawFault>
        ensures { PiFrom p i action result }
    {
        Ok(Pi {
            p: Gain::try_from(p)?,
            i: Gain::try_from(i)?,
            action: Action::try_from(action)?,
            last_error: 0,
            rest: 0,
        })
    }

    // Thousandths to be added to the output.
    fn sum(&self, error: i32) -> i64
        ensures { result ≡ sum_at self.now error }
    {
        self.p.times(error) - self.p.times(self.last_error)
            + self.i.times(error)
            + i64::from(self.rest)
    }
}

impl Law for Pi {
    ghost model = { pi_model };

    ghost meaning = { pi_meaning };

    fn start(&mut self, at: OperatingPoint) {
        self.last_error = self.action.error(at);
        self.rest = 0;
    }

    // Only the answer is pulled in: what is kept is kept as it came.
    fn step(&mut self, at: OperatingPoint) -> Value {
        let error = self.action.error(at);
        let quotient = floored(self.sum(error));
        self.last_error = error;
        self.rest = quotient.rest;
        quotient.added_to(at.out)
    }
}
