// A control block with the third law over the third end settles and keeps its output, as any other does.
use block::{Ask, LowerEnd, Permitted};
use control::{Control, ControlFault, ControlSetup};
use guests::dead_band::DeadBand;
use guests::on_off::OnOff;
use signal::{Limits, Mode, Signal, Status};
use std::test::Fail;

const SETUP: ControlSetup = ControlSetup {
    sp_low: 0,
    sp_high: 100_000,
    out_low: 0,
    out_high: 100_000,
    track_value: 0,
    permitted: 0x98,
    options: 0,
};

fn head() -> Result<Control<DeadBand, OnOff>, ControlFault> {
    let valve = OnOff::new(Limits::new(0, 100_000)?, Permitted { cas: true });
    Control::new(DeadBand { band: 10 }, valve, SETUP)
}

#[test]
fn settles(rt: HostRuntime) -> Result<(), Fail> {
    let mut head = head()?;
    assert_eq!(rt; head.settling(), 4);
    assert!(rt; head.ask(0, Ask::Target(0x08)).is_ok());
    assert!(rt; head.ask(0, Ask::Input(0, Status(0x80))).is_ok());
    assert!(rt; head.ask(1, Ask::Target(0x04)).is_ok());
    let above = Signal::new(0, Status::NOT_CONNECTED);
    for _ in 0..3 {
        head.round(above);
    }
    assert_eq!(rt; head.read(0)?.actual, Mode::Auto);
    assert_eq!(rt; head.read(1)?.actual, Mode::Cas);
    assert!(rt; head.ask(0, Ask::Setpoint(7)).is_ok());
    head.round(above);
    assert_eq!(rt; head.read(1)?.out.raw(), 0);
    assert!(rt; head.ask(0, Ask::Setpoint(500)).is_ok());
    head.round(above);
    assert_eq!(rt; head.read(1)?.out.raw(), 100_000);
    Ok(())
}
