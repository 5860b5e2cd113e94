// The worked cases, proved in one table, and N of a control block over a pulse end as the program answers it.
ghost use Rattle.std.specs.Prelude.{◌≡◌};
ghost use Rattle.cases.specs.Worked.{Worked};

use block::LowerEnd;
use control::Control;
use ends::Pulse;
use law::Law;

pub fn settling_over_pulse<L: Law>(block: &Control<L, Pulse>) -> u16
    ensures worked { Worked L.Law.model }
    ensures five { result ≡ 5 }
{
    block.settling()
}
