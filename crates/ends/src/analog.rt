// The analog end: OUT follows the setpoint, and goes to the fault state after so many faulty rounds.
ghost use Rattle.std.specs.Prelude.{◌≡◌, Some, None, IfOk, MatchResult, refl};
ghost use Rattle.block.specs.Making.{BoundedFrom};
ghost use Rattle.block.specs.declared.fault.EndFault.TheVariants.{BadAction};
ghost use Rattle.ends.specs.Analog.{brings_fault, analog_count, analog_out, analog_own};
ghost use Rattle.ends.specs.Making.{action_of, GoodEndLimits, AnalogGood, AnalogFault, AnalogFrom};
ghost use Rattle.ends.specs.AnalogFacts.{analog_facts};

use crate::making::end_settings;
use crate::round::EndRound;
use crate::thousand::Thousand;
use block::{Ask, Block, Bounded, EndFault, OneBlock, Permitted, Refusal};
use signal::{LimitsFault, Mode, Quality, Signal, Status, Value};

// What LO by fault does to OUT.
#[derive(Clone, Copy)]
pub enum FaultAction {
    Hold,
    Value,
}

// Why a byte is no fault action. What is made of it has the number.
#[derive(Clone, Copy, Debug)]
pub enum ActionFault {
    BadAction,
}

// The numbers and bytes of an analog end as they come.
#[derive(Clone, Copy)]
pub struct AnalogSetup {
    pub low: i32,
    pub high: i32,
    // rounds, 1 to 1,000
    pub fault_time: i32,
    pub fault_value: i32,
    // 0 holds, 1 sets the fault value
    pub fault_action: u8,
    pub permitted: u8,
}

#[derive(Drop)]
pub struct Analog {
    block: Block,
    fault_time: Thousand,
    // kept with either action: every number is kept as given
    fault_value: Value,
    fault_action: FaultAction,
    // faulty rounds in a row, up to the fault time
    count: u16,
}

fn brings_fault(cas_in: Status) -> bool
    ensures { result ≡ brings_fault cas_in.0 }
{
    cas_in.is(Status::INITIATE_FAULT_STATE) || cas_in.quality() == Quality::Bad
}

impl TryFrom<u8> for FaultAction {
    type Error = ActionFault;

    ghost try_from_gives = { λ b r. MatchResult r (λ x. action_of b ≡ Some x) (λ _. action_of b ≡ None) };

    fn try_from(byte: u8) -> Result<FaultAction, ActionFault> {
        match byte {
            0 => Ok(FaultAction::Hold),
            1 => Ok(FaultAction::Value),
            _ => Err(ActionFault::BadAction),
        }
    }
}

impl From<ActionFault> for EndFault {
    ghost from_gives = { λ f r. r ≡ BadAction };

    fn from(f: ActionFault) -> EndFault {
        match f {
            ActionFault::BadAction => EndFault::BadAction,
        }
    }
}

impl AnalogSetup {
    // A function of its own: with the three numbers read in `new`, the proof there does not close.
    fn limits(&self) -> Result<Bounded, LimitsFault>
        ensures { MatchResult result (BoundedFrom self.now.low self.now.high self.now.fault_value) (λ _. GoodEndLimits self.now → ⊥) }
    {
        Bounded::new(self.low, self.high, self.fault_value)
    }
}

impl Analog {
    pub fn new(setup: AnalogSetup) -> Result<Analog, EndFault>
        ensures from { MatchResult result (λ a. AnalogGood setup × AnalogFrom setup a) (AnalogFault setup) }
        ensures kept { IfOk result analog_own.kept }
    {
        let bounded = setup.limits()?;
        let permitted = Permitted::try_from(setup.permitted)?;
        let fault_action = FaultAction::try_from(setup.fault_action)?;
        let fault_time = Thousand::try_from(setup.fault_time)?;
        Ok(Analog {
            block: Block::fresh(end_settings(bounded.limits, permitted, true), None, false),
            fault_time,
            fault_value: bounded.value,
            fault_action,
            count: 0,
        })
    }

    // It counts with target Cas alone, in whatever mode.
    fn counted(&self, cas_in: Status) -> u16
        ensures { result ≡ analog_count self.now cas_in.0 }
    {
        if self.block.target != Mode::Cas || !brings_fault(cas_in) {
            return 0;
        }
        self.count.saturating_add(1).min(self.fault_time.get())
    }

    fn next_out(&self, round: EndRound) -> Value
        ensures { result ≡ analog_out self.now round.mode round.aim }
    {
        match (round.mode, self.fault_action) {
            (Mode::Auto | Mode::Cas, _) => round.aim,
            (Mode::Lo, FaultAction::Value) if !self.block.switch => self.fault_value,
            _ => self.block.at.out,
        }
    }
}

impl OneBlock for Analog {
    ghost own = { analog_own };

    const SETTLING: u16 = 2;

    ghost SETTLING = { 2 };

    ghost settles = { refl };

    ghost facts = { analog_facts };

    fn block(&self) -> &Block {
        &self.block
    }

    fn ask_block(&mut self, ask: Ask) -> Result<(), Refusal> {
        self.block.ask(ask)
    }

    // The count comes before the mode lines, so that a fault time of 1 gives LO at once.
    fn run(&mut self, cas_in: Signal) {
        let count = self.counted(cas_in.status);
        let fault = count == self.fault_time.get();
        let round = EndRound::new(&self.block, fault, cas_in);
        let out = self.next_out(round);
        self.count = count;
        round.leave(&mut self.block, out, false);
    }
}
