// The worked cases run, and the edges of making.
use law::fault::LawFault;
use law::gain_bias::GainBias;
use law::law::Law;
use law::pi::Pi;
use signal::{Numbered, OperatingPoint, Value};
use std::test::Fail;

fn at(sp: i32, out: i32) -> OperatingPoint {
    OperatingPoint {
        sp: Value::pulled_in(sp),
        pv: Value::ZERO,
        out: Value::pulled_in(out),
    }
}

// P, I, action, the setpoint of two steps from 0, 0 and 0, and what they answer.
static STEPS: [(i32, i32, u8, i32, i32, i32); 4] = [
    (1_000, 100, 0, 500, 550, 50),
    (0, 1, 0, 500, 0, 1),
    (0, 1, 0, -1, -1, 0),
    (0, 1, 1, 1, -1, 0),
];

#[test]
fn pi_steps(rt: HostRuntime) -> Result<(), Fail> {
    for (p, i, action, sp, first, second) in STEPS {
        let mut law = Pi::new(p, i, action)?;
        law.start(at(0, 0));
        assert_eq!(rt; law.step(at(sp, 0)).raw(), first);
        assert_eq!(rt; law.step(at(sp, 0)).raw(), second);
    }
    Ok(())
}

#[test]
fn gain_and_bias(rt: HostRuntime) -> Result<(), Fail> {
    let mut law = GainBias::new(1_500)?;
    law.start(at(100, 40));
    assert_eq!(rt; law.step(at(101, 0)).raw(), 41);
    Ok(())
}

#[test]
fn numbers(rt: HostRuntime) {
    for gain in [-1, 10_001] {
        assert!(rt; Pi::new(gain, 0, 0).is_err());
        assert!(rt; Pi::new(0, gain, 0).is_err());
        assert!(rt; GainBias::new(gain).is_err());
    }
    for gain in [0, 10_000] {
        assert!(rt; Pi::new(gain, gain, 1).is_ok());
        assert!(rt; GainBias::new(gain).is_ok());
    }
    assert!(rt; Pi::new(0, 0, 2).is_err());
    assert_eq!(rt; LawFault::NumberOutOfRange.number(), 11);
}
