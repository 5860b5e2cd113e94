// Reads records from the bytes of a sheet.
ghost use Rattle.std.specs.Prelude.{◌≡◌, ◌%◌, ◌<◌, ◌≤◌, List, ◌++◌, length, Err, vec_len, vec_capacity, MatchOption, MatchResult};
ghost use Rattle.sheet.specs.Bytes.{stands, fields, bit_map, promised_length, Sound};
ghost use Rattle.sheet.specs.declared.record.SheetFault.TheVariants.{TooLong, Memory};
ghost use Rattle.sheet.specs.OneWay.{RecordAt, BadAt, Outcome, OneWay};

use crate::field::take_field;
use crate::record::{Record, SheetFault};

// The longest sheet, in bytes.
pub const MAX_SHEET: usize = 65_536;

// Whether bit `k` of a bit map stands.
fn bit(map: u8, k: u32) -> bool
    requires { k < 8 }
    ensures { result ≡ stands k map }
{
    (map >> k) % 2 == 1
}

// The fields that a bit map promises, and what follows them; none where the bytes are too few.
fn take_fields(map: u8, bytes: &[u8]) -> Option<(Record, &[u8])>
    ensures { MatchOption result (length bytes.now < promised_length map) (λ x. (bit_map x.0 ≡ map % 128) × (bytes.now ≡ fields x.0 ++ x.1.now) × Sound x.0) }
{
    let (block, rest) = take_field(bit(map, 0), bytes)?;
    let (target, rest) = take_field(bit(map, 1), rest)?;
    let (switch, rest) = take_field(bit(map, 2), rest)?;
    let (input, rest) = take_field(bit(map, 3), rest)?;
    let (setpoint, rest) = take_field(bit(map, 4), rest)?;
    let (output, rest) = take_field(bit(map, 5), rest)?;
    let round = bit(map, 6);
    Some((
        Record {
            block,
            target,
            switch,
            input,
            setpoint,
            output,
            round,
        },
        rest,
    ))
}

// The bytes of a sheet that is not too long.
#[derive(Clone, Copy)]
struct Sheet<'a> {
    bytes: &'a [u8],
    ghost short: { length bytes.now ≤ 65536 },
}

impl<'a> Sheet<'a> {
    fn new(bytes: &'a [u8]) -> Result<Sheet<'a>, SheetFault>
        ensures { MatchResult result (λ s. s.bytes.now ≡ bytes.now) (λ f. (f ≡ TooLong) × (65536 < length bytes.now)) }
    {
        if bytes.len() > MAX_SHEET {
            return Err(SheetFault::TooLong);
        }
        Ok(Sheet { bytes })
    }

    // The record at a place, and the place behind it.
    fn record(&self, place: usize) -> Result<(Record, usize), SheetFault>
        ensures { MatchResult result (λ x. RecordAt self.now.bytes.now place x.0 x.1) (BadAt self.now.bytes.now place) }
    {
        let Some([map, behind @ ..]) = self.bytes.get(place..) else {
            return Err(SheetFault::CutShort(place));
        };
        // left by `else` as above, where a pattern leaves no other way
        let Some((record, rest)) = take_fields(*map, behind) else {
            return Err(SheetFault::CutShort(place));
        };
        if *map >= 128 {
            return Err(SheetFault::BitSeven(place));
        }
        Ok((record, self.bytes.len() - rest.len()))
    }
}

// Reads the record at a place; answers it and the place behind it.
#[tactic(auto, using(crate::proofs::OneWay::one_way))]
pub fn read_record(bytes: &[u8], place: usize) -> Result<(Record, usize), SheetFault>
    ensures reads { MatchResult result (λ x. RecordAt bytes.now place x.0 x.1) (BadAt bytes.now place) }
    ensures one_way { OneWay }
{
    Sheet::new(bytes)?.record(place)
}

// Reads a whole sheet, and puts its records behind those that `records` holds; those before a bad one stand.
#[tactic(auto, using(crate::proofs::OneWay::one_way))]
pub fn read_sheet(bytes: &[u8], records: &mut Vec<Record>) -> Result<(), SheetFault>
    ensures reads { (rs : List Record) × (records.new.items ≡ records.old.items ++ rs) × Outcome bytes.now rs result }
    ensures full { result ≡ Err Memory → vec_capacity records.old ≤ vec_len records.new }
    ensures one_way { OneWay }
{
    // By hand: from an iterator of results each record is copied through memory twice more, at about twice the time.
    let sheet = Sheet::new(bytes)?;
    let mut place = 0;
    while place < bytes.len() {
        let (record, next) = sheet.record(place)?;
        records.push(record)?;
        place = next;
    }
    Ok(())
}
