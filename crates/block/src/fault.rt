// Why an end was not made, or a part of what is made.
ghost use Rattle.std.specs.Prelude.{◌≡◌};
ghost use Rattle.block.specs.Making.{end_fault_number};
ghost use Rattle.block.specs.declared.fault.EndFault.TheVariants.{BadLimits, BadPermitted};

use signal::{LimitsFault, Numbered};

#[derive(Clone, Copy, Debug)]
pub enum EndFault {
    BadLimits = 12,
    BadPermitted = 13,
    BadAction = 14,
    BadTime = 15,
}

// Why a byte permits no modes. What is made of it has the number.
#[derive(Clone, Copy, Debug)]
pub enum PermittedFault {
    BadPermitted,
}

// Why a byte says no options. What is made of it has the number.
#[derive(Clone, Copy, Debug)]
pub enum OptionsFault {
    BadOptions,
}

impl Numbered for EndFault {
    ghost number_of = { end_fault_number };

    fn number(self) -> u8 {
        self as u8
    }
}

// One `From` for each pair of faults, here and in the other layers: no macro may write an `impl`.
impl From<LimitsFault> for EndFault {
    ghost from_gives = { λ f r. r ≡ BadLimits };

    fn from(f: LimitsFault) -> EndFault {
        match f {
            LimitsFault::BadLimits => EndFault::BadLimits,
        }
    }
}

impl From<PermittedFault> for EndFault {
    ghost from_gives = { λ f r. r ≡ BadPermitted };

    fn from(f: PermittedFault) -> EndFault {
        match f {
            PermittedFault::BadPermitted => EndFault::BadPermitted,
        }
    }
}
