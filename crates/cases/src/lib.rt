// The worked cases, proved, and the published bytes, words and names, the laws, the ends and the edges of what is refused,
// run as tests. Every expected byte is a literal.
#![tactic(auto)]

#[cfg(test)]
mod end_tests;
#[cfg(test)]
mod guest_tests;
#[cfg(test)]
mod law_tests;
pub mod worked;

#[cfg(test)]
mod tests {
    use sheet::read::{read_record, read_sheet};
    use signal::{LoCause, Mode, Numbered, Parts, Status, Value};
    use std::test::Fail;

    // A mode, its byte and word, and what it shows: as a rule, in LO by fault, with the target CAS.
    static MODES: [(Mode, u8, &'static [u8], u8, u8, u8); 6] = [
        (Mode::OutOfService, 0x80, b"OS", 0x1C, 0x1C, 0x1C),
        (Mode::IMan, 0x40, b"IMAN", 0xCC, 0xCC, 0xCC),
        (Mode::Lo, 0x20, b"LO", 0xD8, 0xDC, 0xD8),
        (Mode::Man, 0x10, b"MAN", 0xCC, 0xCC, 0xCC),
        (Mode::Auto, 0x08, b"AUTO", 0xCC, 0xCC, 0xC8),
        (Mode::Cas, 0x04, b"CAS", 0xC0, 0xC0, 0xC0),
    ];

    #[test]
    fn modes(rt: HostRuntime) {
        for (mode, byte, word, shown, by_fault, for_cas) in MODES {
            assert_eq!(rt; mode.byte(), byte);
            assert_eq!(rt; mode.word(), word);
            assert_eq!(rt; mode.shown(Mode::Auto, LoCause::Switch).0, shown);
            assert_eq!(rt; mode.shown(Mode::Auto, LoCause::Fault).0, by_fault);
            assert_eq!(rt; mode.shown(Mode::Cas, LoCause::Switch).0, for_cas);
        }
    }

    // A byte with no limit bits, its quality, sub-status and name.
    static CODES: [(u8, u8, u8, &'static [u8]); 30] = [
        (0x00, 0, 0, b"Non-specific"),
        (0x04, 0, 1, b"Configuration Error"),
        (0x08, 0, 2, b"Not Connected"),
        (0x0C, 0, 3, b"Device Failure"),
        (0x10, 0, 4, b"Sensor Failure"),
        (0x14, 0, 5, b"No Communication, last usable value"),
        (0x18, 0, 6, b"No Communication, no usable value"),
        (0x1C, 0, 7, b"Out of Service"),
        (0x40, 1, 0, b"Non-specific"),
        (0x44, 1, 1, b"Last Usable Value"),
        (0x48, 1, 2, b"Substitute"),
        (0x4C, 1, 3, b"Initial Value"),
        (0x50, 1, 4, b"Sensor Conversion not Accurate"),
        (0x54, 1, 5, b"Engineering Unit Range Violation"),
        (0x58, 1, 6, b"Sub-normal"),
        (0x80, 2, 0, b"Non-specific"),
        (0x84, 2, 1, b"Active Block Alarm"),
        (0x88, 2, 2, b"Active Advisory Alarm"),
        (0x8C, 2, 3, b"Active Critical Alarm"),
        (0x90, 2, 4, b"Unacknowledged Block Alarm"),
        (0x94, 2, 5, b"Unacknowledged Advisory Alarm"),
        (0x98, 2, 6, b"Unacknowledged Critical Alarm"),
        (0xC0, 3, 0, b"Non-specific"),
        (0xC4, 3, 1, b"Initialization Acknowledge"),
        (0xC8, 3, 2, b"Initialization Request"),
        (0xCC, 3, 3, b"Not Invited"),
        (0xD0, 3, 4, b"Not Selected"),
        (0xD8, 3, 6, b"Local Override"),
        (0xDC, 3, 7, b"Fault State Active"),
        (0xE0, 3, 8, b"Initiate Fault State"),
    ];

    #[test]
    fn published_codes(rt: HostRuntime) -> Result<(), Fail> {
        for (byte, quality, sub_status, name) in CODES {
            let parts = Parts {
                quality,
                sub_status,
                limits: 0,
            };
            let code = parts.join()?;
            assert_eq!(rt; code.0, byte);
            assert_eq!(rt; code.split(), parts);
            assert_eq!(rt; code.name(), Some(name));
        }
        assert_eq!(rt; Status(0xD4).name(), None);
        Ok(())
    }

    static NAMED: [(Status, u8); 9] = [
        (Status::NOT_CONNECTED, 0x08),
        (Status::OUT_OF_SERVICE, 0x1C),
        (Status::LINKED, 0xC0),
        (Status::INIT_ACK, 0xC4),
        (Status::INIT_REQUEST, 0xC8),
        (Status::NOT_INVITED, 0xCC),
        (Status::LOCAL_OVERRIDE, 0xD8),
        (Status::FAULT_STATE_ACTIVE, 0xDC),
        (Status::INITIATE_FAULT_STATE, 0xE0),
    ];

    #[test]
    fn named_codes(rt: HostRuntime) {
        for (code, byte) in NAMED {
            assert!(rt; code.is(Status(byte)));
        }
        assert_eq!(rt; Value::ZERO.raw(), 0);
    }

    // Parts of which one is too wide, and the place of the first that is.
    static TOO_WIDE: [(u8, u8, u8, u8); 4] = [
        (4, 16, 4, 0),
        (3, 16, 4, 1),
        (3, 15, 4, 2),
        (255, 0, 0, 0),
    ];

    #[test]
    fn refusals(rt: HostRuntime) -> Result<(), Fail> {
        for (quality, sub_status, limits, place) in TOO_WIDE {
            let parts = Parts {
                quality,
                sub_status,
                limits,
            };
            let fault = parts.join().err().ok_or("joined")?;
            assert_eq!(rt; fault.number(), 9);
            assert_eq!(rt; fault.place(), place);
        }
        let fault = Mode::from_target(0x0C).err().ok_or("a target")?;
        assert_eq!(rt; fault.number(), 3);
        Ok(())
    }

    // A number, and whether it is a value.
    static EDGES: [(i32, bool); 4] = [
        (1_000_000, true),
        (1_000_001, false),
        (-1_000_000, true),
        (-1_000_001, false),
    ];

    #[test]
    fn range(rt: HostRuntime) {
        for (raw, taken) in EDGES {
            match Value::try_from(raw) {
                Ok(value) => {
                    assert!(rt; taken);
                    assert_eq!(rt; value.raw(), raw);
                }
                Err(fault) => {
                    assert!(rt; !taken);
                    assert_eq!(rt; fault.number(), 2);
                }
            }
        }
    }

    // A sum pulled in: a number of 64 bits, and the value's.
    static PULLED: [(i64, i32); 4] = [
        (1_000_001, 1_000_000),
        (-1_000_001, -1_000_000),
        (4_294_967_297, 1_000_000),
        (-7, -7),
    ];

    #[test]
    fn pulled(rt: HostRuntime) {
        for (sum, raw) in PULLED {
            assert_eq!(rt; Value::pulled_in(sum).raw(), raw);
        }
    }

    // Bytes, a place, and the number and place of the refusal that comes there.
    static BAD_RECORDS: [(&'static [u8], usize, u8, usize); 7] = [
        (b"", 0, 20, 0),
        (b"\x40", 1, 20, 1),
        (b"\x40", 9, 20, 9),
        (b"\x40\x08\x00\x00\x00\x00", 1, 20, 1),
        (b"\x81", 0, 20, 0),
        (b"\x40\x80", 1, 21, 1),
        (b"\xC1\x05", 0, 21, 0),
    ];

    #[test]
    fn bad_records(rt: HostRuntime) -> Result<(), Fail> {
        for (bytes, from, number, place) in BAD_RECORDS {
            let fault = read_record(bytes, from).err().ok_or("a record")?;
            assert_eq!(rt; fault.number(), Some(number));
            assert_eq!(rt; fault.place(), place);
        }
        Ok(())
    }

    static WHOLE: [u8; 24] = [
        0x03, 0x01, 0x04, 0x0A, 0x08, 0x00, 0x00, 0x00, 0x00, 0x80, 0x40, 0x40, 0x40, 0x11, 0x01,
        0x00, 0x00, 0x00, 0x07, 0x50, 0x00, 0x00, 0x01, 0xF4,
    ];

    // What was read, written again, is the same bytes, and the records before a bad one stand.
    #[test]
    fn read_and_written(rt: HostRuntime) -> Result<(), Fail> {
        let heap = rt.alloc();
        let mut records = Vec::new(heap);
        assert!(rt; read_sheet(&WHOLE, &mut records).is_ok());
        assert_eq!(rt; records.len(), 7);
        let mut bytes = Vec::new(heap);
        for item in records.iter() {
            assert!(rt; item.write(&mut bytes).is_ok());
        }
        assert_eq!(rt; bytes.as_slice(), WHOLE.as_slice());
        bytes.push(0x20)?;
        let fault = read_sheet(bytes.as_slice(), &mut records)
            .err()
            .ok_or("a sheet")?;
        assert_eq!(rt; fault.number(), Some(20));
        assert_eq!(rt; fault.place(), 24);
        assert_eq!(rt; records.len(), 14);
        Ok(())
    }
}
