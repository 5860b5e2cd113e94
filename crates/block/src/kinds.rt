// What every block has, whatever its kind, and what it can be asked.
ghost use Rattle.signal.specs.Limits.{Inside};

use signal::{Limits, LoCause, Mode, OperatingPoint, Signal, Status, Value};

// The modes that a block permits: O/S, Man and Auto always, Cas where it is said.
#[derive(Clone, Copy)]
pub struct Permitted {
    pub cas: bool,
}

// The options of a control block; an end has none.
#[derive(Clone, Copy)]
pub struct Options {
    // 01: an unusable input sends the fault state down, with target Auto or Cas
    pub fault_on_bad_input: bool,
    // 04: the setpoint follows the process value in Man, IMan and LO
    pub track_pv: bool,
    // 08: an uncertain input is usable
    pub uncertain_usable: bool,
}

// Limits, and a value inside them: a track value, or a fault value.
#[derive(Clone, Copy)]
pub struct Bounded {
    pub limits: Limits,
    pub value: Value,
    ghost inside: { Inside limits value },
}

// What is fixed once a block is made.
#[derive(Clone, Copy)]
pub struct Settings {
    pub sp_limits: Limits,
    pub out_limits: Limits,
    pub permitted: Permitted,
    pub options: Options,
    pub takes_output: bool,
}

#[derive(Clone, Copy)]
pub struct Block {
    pub settings: Settings,
    pub target: Mode,
    pub actual: Mode,
    // what LO came by, fixed by the round and not by the switch as it is now
    pub cause: LoCause,
    pub switch: bool,
    // an end has none
    pub input: Option<Signal>,
    pub at: OperatingPoint,
    // it shows CC in the place of C8
    pub hides_request: bool,
}

// The five calls that name a block, with the numbers and bytes as they came. A sheet has them too, and a round: its crate
// knows nothing of blocks and this one nothing of sheets, so each has an enum of its own.
#[derive(Clone, Copy)]
pub enum Ask {
    Target(u8),
    Switch(u8),
    Input(i32, Status),
    Setpoint(i32),
    Output(i32),
}

// Why a call was turned down.
#[derive(Clone, Copy, Debug)]
pub enum Refusal {
    NoSuchBlock = 1,
    OutOfRange = 2,
    NotATarget = 3,
    NotASwitch = 4,
    NotHere = 5,
    NotPermitted = 6,
    NotAuto = 7,
    NotMan = 8,
}

// What a block answers when it is read.
#[derive(Clone, Copy)]
pub struct Reading {
    pub target: Mode,
    pub actual: Mode,
    pub sp: Value,
    pub out: Value,
    pub shown: Status,
}
