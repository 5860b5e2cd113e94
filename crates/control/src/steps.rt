// The steps of a control block's round that need neither its law nor what is below. They are functions and no methods:
// `Block` is another crate's, and a control block alone has these steps.
ghost use Rattle.std.specs.Prelude.{◌≡◌};
ghost use Rattle.control.specs.Steps.{next_pv, tracked_sp, next_sp, taken_back, sends_fault, sent_status};
ghost use Rattle.signal.specs.Status.{quality_of};

use block::Block;
use signal::{Mode, Quality, Signal, Status, Value};

pub(crate) fn next_pv(block: &Block) -> Value
    ensures { result ≡ next_pv block.now }
{
    match block.input {
        Some(input) if block.usable() => input.value,
        _ => block.at.pv,
    }
}

pub(crate) fn tracked_sp(block: &Block) -> Value
    ensures { result ≡ tracked_sp block.now }
{
    if block.settings.options.track_pv {
        block.settings.sp_limits.pull(next_pv(block))
    } else {
        block.at.sp
    }
}

pub(crate) fn next_sp(block: &Block, mode: Mode, cas_in: Value) -> Value
    ensures { result ≡ next_sp block.now mode cas_in }
{
    match mode {
        Mode::Cas => block.settings.sp_limits.pull(cas_in),
        Mode::Man | Mode::IMan | Mode::Lo => tracked_sp(block),
        Mode::OutOfService | Mode::Auto => block.at.sp,
    }
}

// In IMan the output follows what is shown below, and may lie outside the output limits.
pub(crate) fn taken_back(bkcal_in: Signal, out: Value) -> Value
    ensures { result ≡ taken_back (quality_of bkcal_in.status.0) bkcal_in.value out }
{
    match bkcal_in.status.quality() {
        Quality::Bad => out,
        Quality::Uncertain | Quality::Good | Quality::GoodCascade => bkcal_in.value,
    }
}

pub(crate) fn sends_fault(block: &Block, cas_in: Status) -> bool
    ensures { result ≡ sends_fault block.now cas_in.0 }
{
    match block.target {
        Mode::Cas if cas_in.is(Status::INITIATE_FAULT_STATE) => true,
        Mode::Auto | Mode::Cas => !block.usable() && block.settings.options.fault_on_bad_input,
        _ => false,
    }
}

// E0 wins over C4, and C4 answers a request alone.
pub(crate) fn sent_status(block: &Block, mode: Mode, bkcal_in: Status, cas_in: Status) -> Status
    ensures { result.0 ≡ sent_status block.now mode bkcal_in.0 cas_in.0 }
{
    match mode {
        Mode::OutOfService => Status::OUT_OF_SERVICE,
        _ if sends_fault(block, cas_in) => Status::INITIATE_FAULT_STATE,
        Mode::IMan if bkcal_in.is(Status::INIT_REQUEST) => Status::INIT_ACK,
        _ => Status::LINKED,
    }
}
