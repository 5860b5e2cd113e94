// A third end: a valve that is either open or shut.
ghost use Rattle.std.specs.Prelude.{◌≡◌, true, false, refl};
ghost use Rattle.block.specs.Making.{fresh_block};
ghost use Rattle.ends.specs.Making.{end_settings};
ghost use Rattle.guests.specs.OnOff.{on_off_out, OnOffKept, on_off_own};
ghost use Rattle.guests.specs.OnOffFacts.{on_off_facts};

use block::{Ask, Block, OneBlock, Permitted, Refusal};
use ends::{EndRound, end_settings};
use signal::{Limits, Mode, Signal, Value};

#[derive(Drop)]
pub struct OnOff {
    block: Block,
}

impl OnOff {
    pub fn new(limits: Limits, permitted: Permitted) -> OnOff
        ensures kept { OnOffKept result }
        ensures fresh { result.block ≡ fresh_block (end_settings limits permitted true) None false }
    {
        OnOff {
            block: Block::fresh(end_settings(limits, permitted, true), None, false),
        }
    }

    // Open where the setpoint is above the low limit, else shut.
    fn next_out(&self, round: EndRound) -> Value
        ensures { result ≡ on_off_out self.now.block round.mode round.aim }
    {
        let limits = self.block.settings.sp_limits;
        match round.mode {
            Mode::Auto | Mode::Cas if limits.low() < round.aim => limits.high(),
            Mode::Auto | Mode::Cas => limits.low(),
            _ => self.block.at.out,
        }
    }
}

impl OneBlock for OnOff {
    ghost own = { on_off_own };

    const SETTLING: u16 = 2;

    ghost SETTLING = { 2 };

    ghost settles = { refl };

    ghost facts = { on_off_facts };

    fn block(&self) -> &Block {
        &self.block
    }

    fn ask_block(&mut self, ask: Ask) -> Result<(), Refusal> {
        self.block.ask(ask)
    }

    fn run(&mut self, cas_in: Signal) {
        let round = EndRound::new(&self.block, false, cas_in);
        let out = self.next_out(round);
        round.leave(&mut self.block, out, false);
    }
}
