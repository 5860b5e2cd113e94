// Making a control block.
ghost use Rattle.std.specs.Prelude.{◌≡◌, MatchResult};
ghost use Rattle.control.specs.Making.{GoodLimits, LimitsOf, AllGood, FirstFault, SettingsOf, NewControl, MadeInOrder};

use crate::fault::ControlFault;
use crate::kinds::{Control, ControlSetup};
use block::{Block, Bounded, EndFault, LowerEnd, Options, Permitted, Settings};
use law::{Law, LawFault};
use signal::{Limits, LimitsFault, Signal, Status, Value};

// The most blocks that a control block may stand over.
const MOST_BELOW: u8 = 15;

impl ControlSetup {
    // The setpoint's limits, and the output's with the track value inside them.
    fn limits(&self) -> Result<(Limits, Bounded), LimitsFault>
        ensures { MatchResult result (λ x. GoodLimits self.now × LimitsOf self.now x.0 x.1.limits × (x.1.value.raw ≡ self.now.track_value)) (λ _. GoodLimits self.now → ⊥) }
    {
        let sp_limits = Limits::new(self.sp_low, self.sp_high)?;
        let out = Bounded::new(self.out_low, self.out_high, self.track_value)?;
        Ok((sp_limits, out))
    }

    fn settings(&self) -> Result<(Settings, Value), ControlFault>
        ensures { MatchResult result (λ x. AllGood self.now 0 × SettingsOf self.now x.0 × (x.1.raw ≡ self.now.track_value)) (FirstFault self.now 0) }
    {
        let (sp_limits, out) = self.limits()?;
        let settings = Settings {
            sp_limits,
            out_limits: out.limits,
            permitted: Permitted::try_from(self.permitted)?,
            options: Options::try_from(self.options)?,
            takes_output: true,
        };
        Ok((settings, out.value))
    }
}

impl<L: Law + Drop, E: LowerEnd + Drop> Control<L, E> {
    // A refused making uses up the law and the lower end.
    pub fn new(mut law: L, lower: E, setup: ControlSetup) -> Result<Control<L, E>, ControlFault>
        ensures { NewControl L.Law.model E.LowerEnd.model setup law lower result }
    {
        let (settings, track_value) = setup.settings()?;
        if lower.blocks() > MOST_BELOW {
            return Err(ControlFault::TooManyBlocks);
        }
        let block = Block::fresh(settings, Some(Signal::new(0, Status::NOT_CONNECTED)), false);
        law.start(block.at);
        Ok(Control {
            block,
            track_value,
            law,
            lower,
        })
    }

    // Law, end, control block, up to the first fault.
    pub fn make(
        law: Result<L, LawFault>,
        lower: Result<E, EndFault>,
        setup: ControlSetup,
    ) -> Result<Control<L, E>, ControlFault>
        ensures { MadeInOrder L.Law.model E.LowerEnd.model setup law lower result }
    {
        let law = law?;
        let lower = lower?;
        Control::new(law, lower, setup)
    }
}
