// A control block's round, and the control block as a lower end.
ghost use Rattle.std.specs.Prelude.{◌≡◌};
ghost use Rattle.control.specs.Control.{next_law, with_law, sent_in, ran_in, control_model};
ghost use Rattle.control.specs.Steps.{next_out};
ghost use Rattle.control.specs.OverEnd.{control_meaning};

use crate::kinds::Control;
use crate::steps::{next_pv, next_sp, sent_status, taken_back};
use block::{Ask, LowerEnd, Reading, Refusal};
use law::Law;
use signal::{Mode, OperatingPoint, Signal, Value};

// Of the mode, of what is shown below and of what comes from above each step takes what its rule names, and no struct of them.
impl<L: Law, E: LowerEnd> Control<L, E> {
    // Steps 4 and 5: the output, and the law stepped or started anew.
    fn run_law(&mut self, mode: Mode, bkcal_in: Signal, at: OperatingPoint) -> Value
        ensures answer { result ≡ next_out self.old.block mode bkcal_in self.old.track_value (L.Law.model.answer self.old.law at) }
        ensures after { self.new ≡ with_law self.old (next_law L.Law.model self.old.law mode at result) }
    {
        let last = self.block.at.out;
        let out = match mode {
            Mode::Auto | Mode::Cas => {
                let answer = self.law.step(at);
                return self.block.settings.out_limits.pull(answer);
            }
            Mode::OutOfService | Mode::Man => last,
            Mode::IMan => taken_back(bkcal_in, last),
            Mode::Lo => self.track_value,
        };
        self.law.start(OperatingPoint { out, ..at });
        out
    }

    // Steps 1 and 3 to 6, in the mode that the round brings: what is left of the block and its law, and what is sent down.
    fn run(&mut self, mode: Mode, bkcal_in: Signal, cas_in: Signal) -> Signal
        ensures sent { result ≡ sent_in L.Law.model self.old mode bkcal_in cas_in }
        ensures after { self.new ≡ ran_in L.Law.model self.old mode bkcal_in cas_in }
    {
        let at = OperatingPoint {
            sp: next_sp(&self.block, mode, cas_in.value),
            pv: next_pv(&self.block),
            out: self.block.at.out,
        };
        let status = sent_status(&self.block, mode, bkcal_in.status, cas_in.status);
        let out = self.run_law(mode, bkcal_in, at);
        self.block
            .move_to(mode, OperatingPoint { out, ..at }, false);
        Signal { value: out, status }
    }
}

impl<L: Law, E: LowerEnd> LowerEnd for Control<L, E> {
    ghost model = { control_model L.Law.model E.LowerEnd.model };

    ghost meaning = { control_meaning L.Law.model E.LowerEnd.model L.Law.meaning E.LowerEnd.meaning };

    fn blocks(&self) -> u8 {
        self.lower.blocks().saturating_add(1)
    }

    fn settling(&self) -> u16 {
        self.lower.settling().saturating_add(2)
    }

    fn shown(&self) -> Signal {
        self.block.shown()
    }

    fn read(&self, number: u8) -> Result<Reading, Refusal> {
        if number == 0 {
            return Ok(self.block.read());
        }
        self.lower.read(number - 1)
    }

    fn ask(&mut self, number: u8, ask: Ask) -> Result<(), Refusal> {
        if number == 0 {
            return self.block.ask(ask);
        }
        self.lower.ask(number - 1, ask)
    }

    fn round(&mut self, cas_in: Signal) {
        let bkcal_in = self.lower.shown();
        let mode = self.block.next_mode(bkcal_in.status, false, cas_in.status);
        let sent = self.run(mode, bkcal_in, cas_in);
        self.lower.round(sent);
    }
}
