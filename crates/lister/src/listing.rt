// What the lister prints: a line for each record, and one for the refusal that ends a sheet.
// `write!` is not used: its contract says nothing of room.
ghost use Rattle.std.specs.Prelude.{◌≡◌, ℕ, ◌≤◌, true, List, [], ◌++◌, length, is_ok, vec_capacity, IsOkUnless};
ghost use Rattle.std.specs.List.{flat_map};
ghost use Rattle.signal.specs.Codes.{code_name};
ghost use Rattle.sheet.specs.Bytes.{sheet_bytes};
ghost use Rattle.sheet.specs.Calls.{calls_of};
ghost use Rattle.sheet.specs.declared.record.Call.TheVariants.{Input};
ghost use Rattle.sheet.specs.declared.record.SheetFault.TheVariants.{Memory};
ghost use Rattle.lister.specs.Listing.{target_text, parts_text, named, status_text, call_text, call_value, record_line, lines_from, end_line};
ghost use Rattle.lister.specs.Listed.{Listed, Roomy};

use line::{Hex, Number, Text};
use sheet::read::read_sheet;
use sheet::record::{Call, Input, Record, SheetFault};
use signal::{Mode, Status};
use std::alloc::AllocError;

// A target by its mode's word, or the byte where it is no target.
#[derive(Clone, Copy)]
struct Target(u8);

impl Text for Target {
    ghost text = { λ t. target_text t.0 };

    fn put(self, out: &mut Vec<u8>) -> Result<(), AllocError> {
        match Mode::from_target(self.0) {
            Ok(mode) => mode.word().put(out),
            Err(_) => Hex(self.0).put(out),
        }
    }
}

// The three parts of a status.
#[derive(Clone, Copy)]
struct Parts(Status);

impl Text for Parts {
    ghost text = { λ p. parts_text p.0.0 };

    fn put(self, out: &mut Vec<u8>) -> Result<(), AllocError> {
        let parts = self.0.split();
        let sub_status = (b" ", Number(parts.sub_status));
        let limits = (b" ", Number(parts.limits));
        (b" (", (Number(parts.quality), (sub_status, (limits, b")")))).put(out)
    }
}

// The published name of a status, behind the word for its quality.
#[derive(Clone, Copy)]
struct Name(Status);

impl Text for Name {
    ghost text = { λ n. named n.0.0 (code_name n.0.0) };

    fn put(self, out: &mut Vec<u8>) -> Result<(), AllocError> {
        let Some(name) = self.0.name() else {
            return Ok(());
        };
        (b" ", (self.0.quality().word(), (b" ", name))).put(out)
    }
}

// A status: its byte, its parts and its name.
#[derive(Clone, Copy)]
struct Shown(Status);

impl Text for Shown {
    ghost text = { λ s. status_text s.0.0 };

    fn put(self, out: &mut Vec<u8>) -> Result<(), AllocError> {
        (Hex(self.0.0), (Parts(self.0), Name(self.0))).put(out)
    }
}

// An input's value and its status.
#[derive(Clone, Copy)]
struct Given(Input);

impl Text for Given {
    ghost text = { λ g. call_value (Input g.0) };

    fn put(self, out: &mut Vec<u8>) -> Result<(), AllocError> {
        let value = (b" ", Number(self.0.value));
        (value, (b" status ", Shown(self.0.status))).put(out)
    }
}

// A call's value, behind a space.
#[derive(Clone, Copy)]
struct Value(Call);

impl Text for Value {
    ghost text = { λ v. call_value v.0 };

    fn put(self, out: &mut Vec<u8>) -> Result<(), AllocError> {
        match self.0 {
            Call::Target(byte) => (b" ", Target(byte)).put(out),
            Call::Switch(byte) => (b" ", Number(byte)).put(out),
            Call::Input(input) => Given(input).put(out),
            // one arm for these two gets no proof
            Call::Setpoint(value) => (b" ", Number(value)).put(out),
            Call::Output(value) => (b" ", Number(value)).put(out),
            Call::Round => Ok(()),
        }
    }
}

// A call's word and value, behind a comma.
#[derive(Clone, Copy)]
struct Said(Call);

impl Text for Said {
    ghost text = { λ s. call_text s.0 };

    fn put(self, out: &mut Vec<u8>) -> Result<(), AllocError> {
        (b", ", (self.0.word(), Value(self.0))).put(out)
    }
}

// The calls of a record.
#[derive(Clone, Copy)]
struct Calls<'a>(&'a Record);

impl Text for Calls<'_> {
    ghost text = { λ c. flat_map call_text (calls_of c.0.now) };

    fn put(self, out: &mut Vec<u8>) -> Result<(), AllocError> {
        for call in self.0.calls() {
            Said(call).put(out)?;
        }
        Ok(())
    }
}

// One line: the record's place, its block and its calls.
#[derive(Clone, Copy)]
struct Line<'a> {
    place: usize,
    record: &'a Record,
}

impl Text for Line<'_> {
    ghost text = { λ l. record_line l.place l.«record».now };

    fn put(self, out: &mut Vec<u8>) -> Result<(), AllocError> {
        let block = Number(self.record.block_number());
        let calls = (Calls(self.record), b"\n");
        (Number(self.place), (b" block ", (block, calls))).put(out)
    }
}

// The line of the refusal that ends a sheet, where one does.
#[derive(Clone, Copy)]
struct End(Result<(), SheetFault>);

impl Text for End {
    ghost text = { λ e. end_line e.0 };

    fn put(self, out: &mut Vec<u8>) -> Result<(), AllocError> {
        let Err(fault) = self.0 else {
            return Ok(());
        };
        let Some(number) = fault.number() else {
            return Ok(());
        };
        let place = (Number(fault.place()), b"\n");
        (b"sheet ", (Number(number), (b" ", place))).put(out)
    }
}

// The lines of a sheet's records.
#[derive(Clone, Copy)]
struct Lines<'a> {
    records: &'a [Record],
    ghost few: { length (sheet_bytes records.now) ≤ 65536 },
}

impl Text for Lines<'_> {
    ghost text = { λ l. lines_from 0 l.records.now };

    fn put(self, out: &mut Vec<u8>) -> Result<(), AllocError> {
        // With a `scan` it does not close that the next place fits.
        let mut place = 0;
        for record in self.records {
            Line { place, record }.put(out)?;
            place += record.len();
        }
        Ok(())
    }
}

// Writes what is on a sheet, record by record, up to its end or to the record that is refused.
// The records are kept in `records` meanwhile, which is left empty.
pub fn list_sheet(
    bytes: &[u8],
    records: &mut Vec<Record>,
    out: &mut Vec<u8>,
) -> Result<(), SheetFault>
    ensures listed { is_ok result ≡ true → Listed bytes.now out.old out.new }
    ensures memory { IsOkUnless result Memory }
    ensures kept { (part : List ℕ) × (out.new.items ≡ out.old.items ++ part) }
    ensures roomy { Roomy bytes.now (vec_capacity records.old) out.old → is_ok result ≡ true }
    ensures emptied { records.new.items ≡ [] }
{
    records.clear();
    let end = read_sheet(bytes, records);
    let lines = Lines {
        records: records.as_slice(),
    };
    let done = (lines, End(end)).put(out);
    records.clear();
    done?;
    match end {
        Err(SheetFault::Memory) => end,
        _ => Ok(()),
    }
}
