// What a round does in an end of any kind.
ghost use Rattle.std.specs.Prelude.{◌≡◌};
ghost use Rattle.block.specs.Lines.{moved};
ghost use Rattle.ends.specs.Round.{end_mode, end_aim, aimed_sp, left_sp, left_point};

use block::Block;
use signal::{Mode, OperatingPoint, Signal, Status, Value};

// The mode that a round brings, and the setpoint that OUT is worked out from.
#[derive(Clone, Copy)]
pub struct EndRound {
    pub mode: Mode,
    pub aim: Value,
}

impl EndRound {
    // Nothing stands below an end: it counts as linked.
    pub fn new(block: &Block, fault: bool, cas_in: Signal) -> EndRound
        ensures mode { result.mode ≡ end_mode block.now fault cas_in }
        ensures aim { result.aim ≡ end_aim block.now fault cas_in }
    {
        let mode = block.next_mode(Status::LINKED, fault, cas_in.status);
        let aim = aimed_sp(block, mode, cas_in.value);
        EndRound { mode, aim }
    }

    pub fn leave(self, block: &mut Block, out: Value, hides_request: bool)
        ensures { block.new ≡ moved block.old self.mode (left_point block.old self.mode self.aim out) hides_request }
    {
        let at = OperatingPoint {
            sp: self.left_sp(out),
            pv: block.at.pv,
            out,
        };
        block.move_to(self.mode, at, hides_request);
    }

    // The setpoint that the round leaves: in Man and LO it follows OUT.
    fn left_sp(self, out: Value) -> Value
        ensures { result ≡ left_sp self.mode self.aim out }
    {
        match self.mode {
            Mode::Man | Mode::Lo => out,
            _ => self.aim,
        }
    }
}

// In Cas the setpoint comes from above.
fn aimed_sp(block: &Block, mode: Mode, from_above: Value) -> Value
    ensures { result ≡ aimed_sp block.now mode from_above }
{
    match mode {
        Mode::Cas => block.settings.sp_limits.pull(from_above),
        _ => block.at.sp,
    }
}
