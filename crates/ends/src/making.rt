// The part of making that every kind of end shares.
ghost use Rattle.std.specs.Prelude.{◌≡◌};
ghost use Rattle.ends.specs.Making.{end_settings};

use block::{Options, Permitted, Settings};
use signal::Limits;

// One pair of limits serves SP and OUT.
pub fn end_settings(limits: Limits, permitted: Permitted, takes_output: bool) -> Settings
    ensures { result ≡ end_settings limits permitted takes_output }
{
    Settings {
        sp_limits: limits,
        out_limits: limits,
        permitted,
        options: Options::NONE,
        takes_output,
    }
}
