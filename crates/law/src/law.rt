// A control law: what a control block knows of the law that it holds.
ghost use Rattle.std.specs.Prelude.{◌≡◌};
ghost use Rattle.law.specs.Law.{LawModel, LawMeaning};

use signal::{OperatingPoint, Value};

pub trait Law {
    ghost model: { LawModel Self };

    // Started at setpoint, process value and output.
    fn start(&mut self, at: OperatingPoint)
        ensures { self.new ≡ model.started self.old at };

    // Stepped with setpoint, process value and the last output.
    fn step(&mut self, at: OperatingPoint) -> Value
        ensures next { self.new ≡ model.stepped self.old at }
        ensures answer { result ≡ model.answer self.old at };

    ghost meaning: { LawMeaning model };
}
