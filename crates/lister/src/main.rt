// Reads a call sheet on standard input and says what is on it; no call is run.
#![tactic(auto)]

ghost use Rattle.std.specs.Prelude.{◌≡◌, List, IfOk, IsOkUnless};
ghost use Rattle.sheet.specs.declared.record.SheetFault.TheVariants.{Memory};
ghost use Rattle.sheet.specs.OneWay.{Ending, Reads};
ghost use Rattle.sheet.specs.declared.record.Record.{Record};
ghost use Rattle.lister.specs.Listing.{listing};

mod listing;

use listing::list_sheet;
use sheet::read::MAX_SHEET;
use sheet::record::SheetFault;
use std::alloc::Global;
use std::io;
use std::io::{Read, Write};

// The bytes of a sheet. One byte more than the longest sheet is enough to refuse it. No `From` widens a `usize`.
fn read_input<R: Read + Drop>(from: R, heap: Global) -> io::Result<Vec<u8>> {
    let mut bytes = Vec::new(heap);
    from.take(MAX_SHEET as u64 + 1).read_to_end(&mut bytes)?;
    Ok(bytes)
}

// The listing of a sheet.
fn listed(bytes: &[u8], heap: Global) -> Result<Vec<u8>, SheetFault>
    ensures listed { IfOk result (λ v. (rs : List Record) (e : Ending) → Reads bytes.now rs e → v.items ≡ listing rs e) }
    ensures memory { IsOkUnless result Memory }
{
    let mut records = Vec::new(heap);
    let mut text = Vec::new(heap);
    list_sheet(bytes, &mut records, &mut text)?;
    Ok(text)
}

fn main(rt: HostRuntime) -> io::Result<()> {
    let heap = rt.alloc();
    let bytes = read_input(rt.stdin(), heap)?;
    // the only fault here is want of memory
    let text = listed(bytes.as_slice(), heap).map_err(|_| io::Error::from(
        io::ErrorKind::OutOfMemory,
    ))?;
    rt.stdout().write_all(text.as_slice())
}

#[cfg(test)]
mod tests {
    use super::*;
    use std::test::Fail;

    // A sheet, and what the lister prints of it.
    static SHEETS: [(&'static [u8], &'static [u8]); 9] = [
        // the stored sheet
        (
            b"\x03\x01\x04\x0A\x08\x00\x00\x00\x00\x80\x40\x40\x40\x11\x01\x00\x00\x00\x07\x50\x00\x00\x01\xF4",
            b"0 block 1, target CAS\n3 block 0, target AUTO, input 0 status 80 (2 0 0) Good Non-specific\n10 block 0, round\n11 block 0, round\n12 block 0, round\n13 block 1, setpoint 7\n19 block 0, setpoint 500, round\n",
        ),
        (b"", b""),
        // cut short: the first record, a later one, one whose bit 7 stands too
        (b"\x10\x00\x00\x01", b"sheet 20 0\n"),
        (
            b"\x40\x05\x02\x01\x40\x03\x01",
            b"0 block 0, round\n1 block 2, switch 1\n4 block 0, round\nsheet 20 5\n",
        ),
        (b"\x40\x81", b"0 block 0, round\nsheet 20 1\n"),
        // bit 7
        (b"\x80", b"sheet 21 0\n"),
        (b"\x40\xC1\x05\x40", b"0 block 0, round\nsheet 21 1\n"),
        // no call, no target, numbers below 0 and out of range, every call at once
        (
            b"\x00\x01\x05\x02\x0C\x02\x40",
            b"0 block 0\n1 block 5\n3 block 0, target 0C\n5 block 0, target 40\n",
        ),
        (
            b"\x7F\xFF\x80\xFF\xFF\xFF\xFF\xFF\xD7\x7F\xFF\xFF\xFF\x80\x00\x00\x00",
            b"0 block 255, target OS, switch 255, input -1 status D7 (3 5 3), setpoint 2147483647, output -2147483648, round\n",
        ),
    ];

    #[test]
    fn sheets(rt: HostRuntime) -> Result<(), Fail> {
        for (sheet, listing) in SHEETS {
            let text = listed(sheet, rt.alloc())?;
            assert_eq!(rt; text.as_slice(), listing);
        }
        Ok(())
    }

    // How many bytes stand on the input, and how many are read.
    static LENGTHS: [(usize, usize); 4] = [
        (0, 0),
        (65_536, 65_536),
        (65_537, 65_537),
        (70_000, 65_537),
    ];

    #[test]
    fn input(rt: HostRuntime) -> Result<(), Fail> {
        let heap = rt.alloc();
        for (given, read) in LENGTHS {
            let all = vec![in heap; 0x40u8; given]?;
            let bytes = read_input(all.as_slice(), heap)?;
            assert_eq!(rt; bytes.len(), read);
            let text = listed(bytes.as_slice(), heap)?;
            assert!(rt; text.starts_with(b"sheet 22 0\n") == (given > 65_536));
        }
        Ok(())
    }
}
