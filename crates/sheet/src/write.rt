// Writes records as the bytes of a sheet.
ghost use Rattle.std.specs.Prelude.{◌≡◌, ◌+◌, ◌^◌, ◌<◌, ◌≤◌, true, ◌++◌, length, is_ok, if◌then◌else◌, vec_len, vec_capacity, MatchResult};
ghost use Rattle.sheet.specs.declared.record.SheetFault.TheVariants.{Memory};
ghost use Rattle.sheet.specs.Bytes.{record_bytes, bit_map};
ghost use Rattle.sheet.specs.OneWay.{OneWay};

use crate::field::{Field, field_len, put_field};
use crate::record::{Record, SheetFault};

// Bit `k` of a bit map, where it stands.
fn bit_if(there: bool, k: u32) -> u8
    requires { k < 8 }
    ensures { result ≡ (if there then 2 ^ k else 0) }
{
    u8::from(there) << k
}

impl Record {
    // The bit map: one bit for each field that is there.
    fn bit_map(&self) -> u8
        ensures { result ≡ bit_map self.now }
    {
        bit_if(self.block.is_some(), 0)
            + bit_if(self.target.is_some(), 1)
            + bit_if(self.switch.is_some(), 2)
            + bit_if(self.input.is_some(), 3)
            + bit_if(self.setpoint.is_some(), 4)
            + bit_if(self.output.is_some(), 5)
            + bit_if(self.round, 6)
    }

    // How many bytes the record takes on a sheet.
    pub fn len(&self) -> usize
        ensures { result ≡ length (record_bytes self.now) }
    {
        1 + field_len(self.block)
            + field_len(self.target)
            + field_len(self.switch)
            + field_len(self.input)
            + field_len(self.setpoint)
            + field_len(self.output)
    }

    // Writes the record behind what `out` holds; where memory is wanting, `out` stays as it was.
    #[tactic(auto, using(crate::proofs::OneWay::one_way))]
    pub fn write(&self, out: &mut Vec<u8>) -> Result<(), SheetFault>
        ensures written { MatchResult result (λ _. out.new.items ≡ out.old.items ++ record_bytes self.now) (λ e. (e ≡ Memory) × (out.new.items ≡ out.old.items)) }
        ensures roomy { vec_len out.old + length (record_bytes self.now) ≤ vec_capacity out.old → is_ok result ≡ true }
        ensures one_way { OneWay }
    {
        out.reserve(self.len())?;
        self.bit_map().put(out)?;
        put_field(self.block, out)?;
        put_field(self.target, out)?;
        put_field(self.switch, out)?;
        put_field(self.input, out)?;
        put_field(self.setpoint, out)?;
        put_field(self.output, out)?;
        Ok(())
    }
}
