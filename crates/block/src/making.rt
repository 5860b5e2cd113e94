// The parts of making that all kinds of block share.
ghost use Rattle.std.specs.Prelude.{◌≡◌, Some, None, MatchResult};
ghost use Rattle.block.specs.Making.{BoundedFrom, ProperAround, permitted_of, PermittedFrom, options_of, OptionsFrom, fresh_block};

use crate::fault::{OptionsFault, PermittedFault};
use crate::kinds::{Block, Bounded, Options, Permitted, Settings};
use signal::{Limits, LimitsFault, LoCause, Mode, OperatingPoint, Signal, Value};

impl Bounded {
    pub fn new(low: i32, high: i32, value: i32) -> Result<Bounded, LimitsFault>
        ensures { MatchResult result (BoundedFrom low high value) (λ _. ProperAround low high value → ⊥) }
    {
        let limits = Limits::new(low, high)?;
        let value = Value::try_from(value)?;
        if !limits.holds(value) {
            return Err(LimitsFault::BadLimits);
        }
        Ok(Bounded { limits, value })
    }
}

impl TryFrom<u8> for Permitted {
    type Error = PermittedFault;

    ghost try_from_gives = { λ b r. PermittedFrom b r × MatchResult r (λ p. permitted_of b ≡ Some p) (λ _. permitted_of b ≡ None) };

    fn try_from(byte: u8) -> Result<Permitted, PermittedFault> {
        match byte {
            0x98 => Ok(Permitted { cas: false }),
            0x9C => Ok(Permitted { cas: true }),
            _ => Err(PermittedFault::BadPermitted),
        }
    }
}

impl Options {
    pub const NONE: Options = Options {
        fault_on_bad_input: false,
        track_pv: false,
        uncertain_usable: false,
    };
}

impl TryFrom<u8> for Options {
    type Error = OptionsFault;

    ghost try_from_gives = { λ b r. OptionsFrom b r × MatchResult r (λ o. options_of b ≡ Some o) (λ _. options_of b ≡ None) };

    fn try_from(byte: u8) -> Result<Options, OptionsFault> {
        // With `&` in place of quotients it does not close which bits stand.
        if byte >= 16 || byte / 2 % 2 != 0 {
            return Err(OptionsFault::BadOptions);
        }
        Ok(Options {
            fault_on_bad_input: byte % 2 == 1,
            track_pv: byte / 4 % 2 == 1,
            uncertain_usable: byte / 8 % 2 == 1,
        })
    }
}

impl Block {
    // A control block comes with an input, and an end with none.
    pub fn fresh(settings: Settings, input: Option<Signal>, hides_request: bool) -> Block
        ensures { result ≡ fresh_block settings input hides_request }
    {
        let zero = Value::ZERO;
        Block {
            settings,
            target: Mode::OutOfService,
            actual: Mode::OutOfService,
            cause: LoCause::Switch,
            switch: false,
            input,
            at: OperatingPoint {
                sp: settings.sp_limits.pull(zero),
                pv: zero,
                out: settings.out_limits.pull(zero),
            },
            hides_request,
        }
    }
}
