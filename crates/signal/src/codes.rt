// The published status codes: a name for each, by quality and sub-status.
ghost use Rattle.std.specs.Prelude.{◌≡◌, map};
ghost use Rattle.std.specs.Option.{option_map};
ghost use Rattle.signal.specs.Status.{quality_number};
ghost use Rattle.signal.specs.Codes.{quality_word, published, row_of, name_in, code_name};

use crate::status::Quality::{Bad, Good, GoodCascade, Uncertain};
use crate::status::{Quality, Status};

// Quality, sub-status and name.
type Row = (Quality, u8, &'static [u8]);

static CODES: [Row; 30] = [
    (Bad, 0, b"Non-specific"),
    (Bad, 1, b"Configuration Error"),
    (Bad, 2, b"Not Connected"),
    (Bad, 3, b"Device Failure"),
    (Bad, 4, b"Sensor Failure"),
    (Bad, 5, b"No Communication, last usable value"),
    (Bad, 6, b"No Communication, no usable value"),
    (Bad, 7, b"Out of Service"),
    (Uncertain, 0, b"Non-specific"),
    (Uncertain, 1, b"Last Usable Value"),
    (Uncertain, 2, b"Substitute"),
    (Uncertain, 3, b"Initial Value"),
    (Uncertain, 4, b"Sensor Conversion not Accurate"),
    (Uncertain, 5, b"Engineering Unit Range Violation"),
    (Uncertain, 6, b"Sub-normal"),
    (Good, 0, b"Non-specific"),
    (Good, 1, b"Active Block Alarm"),
    (Good, 2, b"Active Advisory Alarm"),
    (Good, 3, b"Active Critical Alarm"),
    (Good, 4, b"Unacknowledged Block Alarm"),
    (Good, 5, b"Unacknowledged Advisory Alarm"),
    (Good, 6, b"Unacknowledged Critical Alarm"),
    (GoodCascade, 0, b"Non-specific"),
    (GoodCascade, 1, b"Initialization Acknowledge"),
    (GoodCascade, 2, b"Initialization Request"),
    (GoodCascade, 3, b"Not Invited"),
    (GoodCascade, 4, b"Not Selected"),
    (GoodCascade, 6, b"Local Override"),
    (GoodCascade, 7, b"Fault State Active"),
    (GoodCascade, 8, b"Initiate Fault State"),
];

// A table with a method that reads it, as for the modes.
const QUALITY_WORDS: [&'static [u8]; 4] = [b"Bad", b"Uncertain", b"Good", b"Good-cascade"];

impl Quality {
    pub fn word(self) -> &'static [u8]
        ensures { result.now ≡ quality_word self }
    {
        QUALITY_WORDS[self as usize]
    }
}

// The published codes, row for row.
fn table() -> &'static [Row]
    ensures { map row_of result.now ≡ published }
{
    &CODES
}

// The name in the first row that has this quality and sub-status.
fn name_in(rows: &[Row], quality: Quality, sub_status: u8) -> Option<&'static [u8]>
    ensures { option_map (λ x. x.now) result ≡ name_in (map row_of rows.now) (quality_number quality) sub_status }
{
    rows.iter()
        .find(|&&(q, s, _)| q == quality && s == sub_status)
        .map(|&(_, _, name)| name)
}

impl Status {
    // The name leaves the limit bits out.
    #[tactic(auto, unfolding(crate::specs::Codes::code_name))]
    pub fn name(self) -> Option<&'static [u8]>
        ensures { option_map (λ x. x.now) result ≡ code_name self.0 }
    {
        name_in(table(), self.quality(), self.split().sub_status)
    }
}
