// The lines that choose a block's mode in a round, and what a round moves in a block.
ghost use Rattle.std.specs.Prelude.{◌≡◌};
ghost use Rattle.block.specs.Lines.{usable, keeps_cas, next_mode, moved};

use crate::kinds::Block;
use signal::{LoCause, Mode, OperatingPoint, Quality, Status};

impl Block {
    pub fn usable(&self) -> bool
        ensures { result ≡ usable self.now }
    {
        let Some(input) = self.input else {
            return true;
        };
        match input.status.quality() {
            Quality::Bad => false,
            Quality::Uncertain => self.settings.options.uncertain_usable,
            Quality::Good | Quality::GoodCascade => true,
        }
    }

    // The first line that fits. IMan wins over LO, LO over Man, and Cas is not entered on C0 while C8 still asks.
    pub fn next_mode(&self, bkcal_in: Status, fault: bool, cas_in: Status) -> Mode
        ensures { result ≡ next_mode self.now bkcal_in.0 fault cas_in.0 }
    {
        let asked = self.shown_status().is(Status::INIT_REQUEST);
        match (self.actual, self.target) {
            (_, Mode::OutOfService) => Mode::OutOfService, // M1
            _ if !bkcal_in.is(Status::LINKED) => Mode::IMan, // M2
            _ if self.switch || fault => Mode::Lo, // M3, and an end's fault
            (_, Mode::Man) => Mode::Man, // M4
            _ if !self.usable() => Mode::Man, // M4
            (_, Mode::Auto) => Mode::Auto, // M5
            (Mode::Cas, Mode::Cas) if keeps_cas(cas_in) => Mode::Cas, // M6
            _ if asked && cas_in.is(Status::INIT_ACK) => Mode::Cas, // M7
            _ => Mode::Auto, // M8
        }
    }

    // What a round leaves: target, switch and input stand.
    pub fn move_to(&mut self, mode: Mode, at: OperatingPoint, hides_request: bool)
        ensures { self.new ≡ moved self.old mode at hides_request }
    {
        self.actual = mode;
        self.cause = if self.switch {
            LoCause::Switch
        } else {
            LoCause::Fault
        };
        self.at = at;
        self.hides_request = hides_request;
    }
}

fn keeps_cas(cas_in: Status) -> bool
    ensures { result ≡ keeps_cas cas_in.0 }
{
    cas_in.is(Status::LINKED)
        || cas_in.is(Status::INIT_ACK)
        || cas_in.is(Status::INITIATE_FAULT_STATE)
}
