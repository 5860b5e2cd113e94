// Making at its edges, the fault sequence and the hidden request, run.
use block::{Ask, EndFault, LowerEnd};
use ends::analog::{Analog, AnalogSetup};
use ends::pulse::{Pulse, PulseSetup};
use signal::{Numbered, Signal, Status};
use std::test::Fail;

fn analog(
    fault_value: i32,
    permitted: u8,
    fault_action: u8,
    fault_time: i32,
) -> Result<Analog, EndFault> {
    Analog::new(AnalogSetup {
        low: -50_000,
        high: 50_000,
        fault_time,
        fault_value,
        fault_action,
        permitted,
    })
}

fn pulse(high: i32, permitted: u8, travel: i32) -> Result<Pulse, EndFault> {
    Pulse::new(PulseSetup {
        low: 0,
        high,
        travel,
        permitted,
    })
}

// The refusal's number, or 0 where there is none.
fn fault<T: Drop, F: Numbered + Drop>(answer: Result<T, F>) -> u8 {
    answer.map_or_else(|fault| fault.number(), |_| 0)
}

// What is shown after a round on this value and status.
fn shown_after<E: LowerEnd>(end: &mut E, value: i32, status: u8) -> u8 {
    end.round(Signal::new(value, Status(status)));
    end.shown().status.0
}

// Of several faults the one with the lowest number is told.
#[test]
fn analog_making(rt: HostRuntime) {
    assert_eq!(rt; fault(analog(50_000, 0x98, 0, 1)), 0);
    assert_eq!(rt; fault(analog(-50_000, 0x9C, 1, 1_000)), 0);
    assert_eq!(rt; fault(analog(0, 0x9C, 1, 0)), 15);
    assert_eq!(rt; fault(analog(0, 0x9C, 1, 1_001)), 15);
    assert_eq!(rt; fault(analog(0, 0x9C, 2, 0)), 14);
    assert_eq!(rt; fault(analog(0, 0x9D, 2, 0)), 13);
    assert_eq!(rt; fault(analog(50_001, 0x9D, 2, 0)), 12);
    assert_eq!(rt; fault(analog(1_000_001, 0x9C, 1, 1)), 12);
}

#[test]
fn pulse_making(rt: HostRuntime) {
    assert_eq!(rt; fault(pulse(0, 0x98, 1)), 0);
    assert_eq!(rt; fault(pulse(1_000_000, 0x9C, 1_000)), 0);
    assert_eq!(rt; fault(pulse(0, 0x9C, 0)), 15);
    assert_eq!(rt; fault(pulse(0, 0x9C, 1_001)), 15);
    assert_eq!(rt; fault(pulse(0, 0x18, 1_001)), 13);
    assert_eq!(rt; fault(pulse(-1, 0x18, 1)), 12);
    assert_eq!(rt; fault(pulse(1_000_001, 0x98, 1)), 12);
}

// Into Cas by C8 and C4, two faulty rounds, a whole one that starts the count again, then three: LO on the fault value.
#[test]
fn fault_on_third_round(rt: HostRuntime) -> Result<(), Fail> {
    let mut end = analog(20_000, 0x9C, 1, 3)?;
    assert_eq!(rt; fault(end.ask(0, Ask::Target(0x04))), 0);
    assert_eq!(rt; shown_after(&mut end, 0, 0xC0), 0xC8);
    assert_eq!(rt; shown_after(&mut end, 0, 0xC4), 0xC0);
    assert_eq!(rt; shown_after(&mut end, 7, 0xE0), 0xC0);
    assert_eq!(rt; shown_after(&mut end, 7, 0xE0), 0xC0);
    assert_eq!(rt; shown_after(&mut end, 7, 0xC0), 0xC0);
    assert_eq!(rt; shown_after(&mut end, 7, 0xE0), 0xC0);
    assert_eq!(rt; shown_after(&mut end, 7, 0x00), 0xC8);
    assert_eq!(rt; shown_after(&mut end, 7, 0x3F), 0xDC);
    assert_eq!(rt; end.shown().value.raw(), 20_000);
    assert_eq!(rt; shown_after(&mut end, 7, 0xC0), 0xC8);
    Ok(())
}

// The second round in Auto shows the request, and C4 is then taken; a travel of 100 leads upwards.
#[test]
fn request_on_second_round(rt: HostRuntime) -> Result<(), Fail> {
    let mut end = pulse(100_000, 0x9C, 100)?;
    assert_eq!(rt; end.shown().status.0, 0x1C);
    assert_eq!(rt; fault(end.ask(0, Ask::Target(0x04))), 0);
    assert_eq!(rt; shown_after(&mut end, 0, 0xC4), 0xCC);
    assert_eq!(rt; shown_after(&mut end, 0, 0xC4), 0xC8);
    assert_eq!(rt; shown_after(&mut end, 199, 0xC4), 0xC0);
    assert_eq!(rt; end.read(0)?.out.raw(), 100);
    assert_eq!(rt; shown_after(&mut end, 199, 0xC0), 0xC0);
    assert_eq!(rt; end.read(0)?.out.raw(), 100);
    Ok(())
}

#[test]
fn calls_that_an_end_has_not(rt: HostRuntime) -> Result<(), Fail> {
    let mut analog = analog(20_000, 0x9C, 1, 3)?;
    let mut pulse = pulse(100_000, 0x9C, 100)?;
    let input = Ask::Input(2_000_000, Status(0x80));
    assert_eq!(rt; fault(analog.ask(0, input)), 5);
    assert_eq!(rt; fault(pulse.ask(0, input)), 5);
    assert_eq!(rt; fault(pulse.ask(0, Ask::Output(0))), 5);
    assert_eq!(rt; fault(analog.ask(0, Ask::Output(0))), 8);
    Ok(())
}
