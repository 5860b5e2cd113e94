// The modes of a block: their bytes, their words, and the status that each shows upward.
ghost use Rattle.std.specs.Prelude.{◌≡◌, Some, None, MatchResult};
ghost use Rattle.signal.specs.Mode.{mode_byte, mode_word, mode_shows, target_fault_number, TargetFrom, target_of};

use crate::numbered::Numbered;
use crate::status::Status;

#[derive(Clone, Copy, Debug, PartialEq, Eq)]
pub enum Mode {
    OutOfService,
    IMan,
    Lo,
    Man,
    Auto,
    Cas,
}

// What brought a block into LO. It stands beside the mode and not inside it, since the tables are indexed by the mode.
#[derive(Clone, Copy, Debug, PartialEq, Eq)]
pub enum LoCause {
    Switch,
    Fault,
}

// Why a byte is no target.
#[derive(Clone, Copy, Debug, PartialEq, Eq)]
pub enum TargetFault {
    NotATarget = 3,
}

// A table for each of byte, word and status, in the order of the modes, and a method that reads it: a rule of the project, as
// is that a word is a byte string, which goes into a line of bytes.
const MODE_BYTES: [u8; 6] = [0x80, 0x40, 0x20, 0x10, 0x08, 0x04];

const MODE_WORDS: [&'static [u8]; 6] = [b"OS", b"IMAN", b"LO", b"MAN", b"AUTO", b"CAS"];

// The status shown as a rule, and in the mode's second case: LO by fault, AUTO with the target CAS.
const MODE_SHOWS: [[Status; 2]; 6] = [
    [Status::OUT_OF_SERVICE, Status::OUT_OF_SERVICE],
    [Status::NOT_INVITED, Status::NOT_INVITED],
    [Status::LOCAL_OVERRIDE, Status::FAULT_STATE_ACTIVE],
    [Status::NOT_INVITED, Status::NOT_INVITED],
    [Status::NOT_INVITED, Status::INIT_REQUEST],
    [Status::LINKED, Status::LINKED],
];

impl Numbered for TargetFault {
    ghost number_of = { target_fault_number };

    fn number(self) -> u8 {
        self as u8
    }
}

impl Mode {
    pub fn byte(self) -> u8
        ensures { result ≡ mode_byte self }
    {
        MODE_BYTES[self as usize]
    }

    pub fn word(self) -> &'static [u8]
        ensures { result.now ≡ mode_word self }
    {
        MODE_WORDS[self as usize]
    }

    pub fn shown(self, target: Mode, cause: LoCause) -> Status
        ensures { result.0 ≡ mode_shows self target cause }
    {
        let second = match self {
            Mode::Lo => cause == LoCause::Fault,
            Mode::Auto => target == Mode::Cas,
            _ => false,
        };
        MODE_SHOWS[self as usize][usize::from(second)]
    }

    // IMAN and LO are never asked for: a block comes into them by itself. It is no `TryFrom`: a byte may also be that of any
    // mode, or of several, and the name says which is meant. The modes are looked at where they stand: handed over one by one,
    // they take four times the time.
    pub fn from_target(byte: u8) -> Result<Mode, TargetFault>
        ensures from { TargetFrom byte result }
        ensures value { MatchResult result (λ m. target_of byte ≡ Some m) (λ _. target_of byte ≡ None) }
    {
        [Mode::OutOfService, Mode::Man, Mode::Auto, Mode::Cas]
            .iter()
            .find(|mode| mode.byte() == byte)
            .copied()
            .ok_or(TargetFault::NotATarget)
    }
}
