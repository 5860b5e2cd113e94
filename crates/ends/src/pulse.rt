// The pulse end: its position, shown as OUT, goes towards the setpoint by one travel a round.
ghost use Rattle.std.specs.Prelude.{◌≡◌, ◌≤◌, ◌+ℤ◌, IfOk, MatchResult, unsigned_abs, refl};
ghost use Rattle.block.specs.Modes.{runs};
ghost use Rattle.ends.specs.Making.{PulseGood, PulseFault, PulseFrom};
ghost use Rattle.ends.specs.Pulse.{stepped, pulse_out, pulse_own};
ghost use Rattle.ends.specs.PulseFacts.{pulse_facts};

use crate::making::end_settings;
use crate::round::EndRound;
use crate::thousand::Thousand;
use block::{Ask, Block, EndFault, OneBlock, Permitted, Refusal};
use signal::{Limits, Mode, Signal, Value};

// The numbers and bytes of a pulse end as they come.
#[derive(Clone, Copy)]
pub struct PulseSetup {
    pub low: i32,
    pub high: i32,
    // thousandths of a percent of span a round, 1 to 1,000
    pub travel: i32,
    pub permitted: u8,
}

#[derive(Drop)]
pub struct Pulse {
    block: Block,
    travel: Thousand,
}

fn runs(mode: Mode) -> bool
    ensures { result ≡ runs mode }
{
    matches!(mode, Mode::Auto | Mode::Cas)
}

// The number so far off a position, up or down; it may lie out of range. Written inline, its two sums do not close.
fn off(from: Value, by: i32) -> i32
    requires { unsigned_abs by ≤ 1000 }
    ensures { result ≡ from.raw +ℤ by }
{
    from.raw() + by
}

fn stepped(from: Value, travel: Thousand, aim: Value) -> Value
    ensures { result ≡ stepped from travel.number aim }
{
    let travel = i32::from(travel.get());
    let up = off(from, travel);
    let down = off(from, -travel);
    if up <= aim.raw() {
        Value::pulled_in(up)
    } else if aim.raw() <= down {
        Value::pulled_in(down)
    } else {
        from
    }
}

impl Pulse {
    pub fn new(setup: PulseSetup) -> Result<Pulse, EndFault>
        ensures from { MatchResult result (λ p. PulseGood setup × PulseFrom setup p) (PulseFault setup) }
        ensures kept { IfOk result pulse_own.kept }
    {
        let limits = Limits::new(setup.low, setup.high)?;
        let permitted = Permitted::try_from(setup.permitted)?;
        let travel = Thousand::try_from(setup.travel)?;
        Ok(Pulse {
            block: Block::fresh(end_settings(limits, permitted, false), None, true),
            travel,
        })
    }

    fn next_out(&self, round: EndRound) -> Value
        ensures { result ≡ pulse_out self.now round.mode round.aim }
    {
        match round.mode {
            Mode::Auto | Mode::Cas => stepped(self.block.at.out, self.travel, round.aim),
            _ => self.block.at.out,
        }
    }
}

impl OneBlock for Pulse {
    ghost own = { pulse_own };

    const SETTLING: u16 = 3;

    ghost SETTLING = { 3 };

    ghost settles = { refl };

    ghost facts = { pulse_facts };

    fn block(&self) -> &Block {
        &self.block
    }

    fn ask_block(&mut self, ask: Ask) -> Result<(), Refusal> {
        self.block.ask(ask)
    }

    // It asks from above only after a second round in Auto or Cas.
    fn run(&mut self, cas_in: Signal) {
        let hides = !runs(self.block.actual);
        let round = EndRound::new(&self.block, false, cas_in);
        let out = self.next_out(round);
        round.leave(&mut self.block, out, hides);
    }
}
