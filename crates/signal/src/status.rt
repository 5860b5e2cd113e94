// The status byte of a signal: its codes, its parts, and the one comparison with a code.
ghost use Rattle.std.specs.Prelude.{◌≡◌, ◌/◌};
ghost use Rattle.signal.specs.Value.{value_near};
ghost use Rattle.signal.specs.Status.{same_code, quality_of, quality_number, part_place, part_fault_number, part_fault_place};
ghost use Rattle.signal.specs.Status.{PartsFit, joined_byte, split_byte, JoinedFrom, JoinAfterSplit, SplitAfterJoin};

use crate::kinds::Value;
use crate::numbered::Numbered;

// Any byte is a status. It has no `==`: a comparison with a code is `is`.
#[derive(Clone, Copy, Debug)]
pub struct Status(pub u8);

// The top two bits of a status.
#[derive(Clone, Copy, Debug, PartialEq, Eq)]
pub enum Quality {
    Bad,
    Uncertain,
    Good,
    GoodCascade,
}

// A status byte in parts: 2 bits of quality, 4 of sub-status, 2 of limits. The quality is a number and no `Quality`, since
// any three bytes are parts: joining names the first that is too wide.
#[derive(Clone, Copy, Debug, PartialEq, Eq)]
pub struct Parts {
    pub quality: u8,
    pub sub_status: u8,
    pub limits: u8,
}

#[derive(Clone, Copy, Debug, PartialEq, Eq)]
pub enum Part {
    Quality,
    SubStatus,
    Limits,
}

// Why parts make no status byte: the first that has more bits than its place.
#[derive(Clone, Copy, Debug)]
pub enum PartFault {
    TooWide(Part),
}

// A value with its status, as it passes from block to block.
#[derive(Clone, Copy)]
pub struct Signal {
    pub value: Value,
    pub status: Status,
}

impl Status {
    pub const NOT_CONNECTED: Status = Status(0x08);

    pub const OUT_OF_SERVICE: Status = Status(0x1C);

    pub const LINKED: Status = Status(0xC0);

    pub const INIT_ACK: Status = Status(0xC4);

    pub const INIT_REQUEST: Status = Status(0xC8);

    pub const NOT_INVITED: Status = Status(0xCC);

    pub const LOCAL_OVERRIDE: Status = Status(0xD8);

    pub const FAULT_STATE_ACTIVE: Status = Status(0xDC);

    pub const INITIATE_FAULT_STATE: Status = Status(0xE0);

    // The only place where a status is compared with a code: whole bytes, the limit bits too.
    pub fn is(self, code: Status) -> bool
        ensures { result ≡ same_code self.0 code.0 }
    {
        self.0 == code.0
    }

    pub fn quality(self) -> Quality
        ensures value { result ≡ quality_of self.0 }
        ensures number { quality_number result ≡ self.0 / 64 }
    {
        match self.0 / 64 {
            0 => Quality::Bad,
            1 => Quality::Uncertain,
            2 => Quality::Good,
            _ => Quality::GoodCascade,
        }
    }

    pub fn split(self) -> Parts
        ensures value { result ≡ split_byte self.0 }
        ensures fits { PartsFit result }
        ensures whole { joined_byte result ≡ self.0 }
        ensures law { JoinAfterSplit }
    {
        Parts {
            quality: self.0 / 64,
            sub_status: self.0 / 4 % 16,
            limits: self.0 % 4,
        }
    }
}

impl Parts {
    pub fn join(self) -> Result<Status, PartFault>
        ensures made { JoinedFrom self result }
        ensures law { SplitAfterJoin }
    {
        if self.quality > 3 {
            return Err(PartFault::TooWide(Part::Quality));
        }
        if self.sub_status > 15 {
            return Err(PartFault::TooWide(Part::SubStatus));
        }
        if self.limits > 3 {
            return Err(PartFault::TooWide(Part::Limits));
        }
        Ok(Status(64 * self.quality + 4 * self.sub_status + self.limits))
    }
}

impl Part {
    // The place in the byte, from the top: 0, 1 or 2.
    pub fn place(self) -> u8
        ensures { result ≡ part_place self }
    {
        self as u8
    }
}

impl Numbered for PartFault {
    ghost number_of = { part_fault_number };

    fn number(self) -> u8 {
        match self {
            PartFault::TooWide(_) => 9,
        }
    }
}

impl PartFault {
    pub fn place(self) -> u8
        ensures { result ≡ part_fault_place self }
    {
        match self {
            PartFault::TooWide(part) => part.place(),
        }
    }
}

impl Signal {
    // A number out of range is pulled in; the status stays as it came.
    pub fn new(raw: i32, status: Status) -> Signal
        ensures value { result.value ≡ value_near raw }
        ensures status { result.status ≡ status }
    {
        Signal {
            value: Value::pulled_in(raw),
            status,
        }
    }
}
