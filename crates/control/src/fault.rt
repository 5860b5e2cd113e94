// Why a control block was not made. The fault of a law or of an end is carried whole.
ghost use Rattle.std.specs.Prelude.{◌≡◌};
ghost use Rattle.control.specs.Making.{control_fault_number};
ghost use Rattle.control.specs.declared.fault.ControlFault.TheVariants.{Law, End, BadLimits, BadPermitted, BadOptions};

use block::{EndFault, OptionsFault, PermittedFault};
use law::LawFault;
use signal::{LimitsFault, Numbered};

#[derive(Clone, Copy, Debug)]
pub enum ControlFault {
    Law(LawFault),
    End(EndFault),
    BadLimits,
    BadPermitted,
    BadOptions,
    TooManyBlocks,
}

impl Numbered for ControlFault {
    ghost number_of = { control_fault_number };

    fn number(self) -> u8 {
        match self {
            ControlFault::Law(fault) => fault.number(),
            ControlFault::End(fault) => fault.number(),
            ControlFault::BadLimits => 12,
            ControlFault::BadPermitted => 13,
            ControlFault::BadOptions => 14,
            ControlFault::TooManyBlocks => 17,
        }
    }
}

// One `From` for each fault that is carried or turned: no macro may write an `impl`.
impl From<LawFault> for ControlFault {
    ghost from_gives = { λ f r. r ≡ Law f };

    fn from(f: LawFault) -> ControlFault {
        ControlFault::Law(f)
    }
}

impl From<EndFault> for ControlFault {
    ghost from_gives = { λ f r. r ≡ End f };

    fn from(f: EndFault) -> ControlFault {
        ControlFault::End(f)
    }
}

impl From<LimitsFault> for ControlFault {
    ghost from_gives = { λ f r. r ≡ BadLimits };

    fn from(f: LimitsFault) -> ControlFault {
        match f {
            LimitsFault::BadLimits => ControlFault::BadLimits,
        }
    }
}

impl From<PermittedFault> for ControlFault {
    ghost from_gives = { λ f r. r ≡ BadPermitted };

    fn from(f: PermittedFault) -> ControlFault {
        match f {
            PermittedFault::BadPermitted => ControlFault::BadPermitted,
        }
    }
}

impl From<OptionsFault> for ControlFault {
    ghost from_gives = { λ f r. r ≡ BadOptions };

    fn from(f: OptionsFault) -> ControlFault {
        match f {
            OptionsFault::BadOptions => ControlFault::BadOptions,
        }
    }
}
