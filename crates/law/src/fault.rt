// Why a law was not made.
ghost use Rattle.law.specs.Fault.{law_fault_number};

use signal::Numbered;

#[derive(Clone, Copy, Debug)]
pub enum LawFault {
    NumberOutOfRange = 11,
}

impl Numbered for LawFault {
    ghost number_of = { law_fault_number };

    fn number(self) -> u8 {
        self as u8
    }
}
