// What a record of a call sheet holds, and the calls that it gives.
use signal::status::Status;

// What an input call brings: a value in thousandths of a percent of span, not yet checked, and a status.
#[derive(Clone, Copy)]
pub struct Input {
    pub value: i32,
    pub status: Status,
}

// One record: each field is there only where its bit stands.
#[derive(Clone, Copy)]
pub struct Record {
    pub block: Option<u8>,
    pub target: Option<u8>,
    pub switch: Option<u8>,
    pub input: Option<Input>,
    pub setpoint: Option<i32>,
    pub output: Option<i32>,
    pub round: bool,
}

// One call of a record, as the sheet writes it.
#[derive(Clone, Copy)]
pub enum Call {
    Target(u8),
    Switch(u8),
    Input(Input),
    Setpoint(i32),
    Output(i32),
    Round,
}

// Why a sheet was not read or written. Places count from 0, at the bad record's bit map.
#[derive(Clone, Copy, Debug)]
pub enum SheetFault {
    CutShort(usize),
    BitSeven(usize),
    TooLong,
    Memory,
}
