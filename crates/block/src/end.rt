// A lower end: what a control block knows of whatever stands below it.
ghost use Rattle.std.specs.Prelude.{◌≡◌, min};
ghost use Rattle.block.specs.Meaning.{EndModel, Meaning};

use crate::kinds::{Ask, Reading, Refusal};
use signal::Signal;

pub trait LowerEnd {
    ghost model: { EndModel Self };

    // The number of blocks; 255 stands for that and more, which no cascade takes.
    fn blocks(&self) -> u8
        ensures { result ≡ min (model.size self.now) 255 };

    // The number N; 65,535 stands for that and more, which no end of up to 65 blocks has.
    fn settling(&self) -> u16
        ensures { result ≡ min (model.settling self.now) 65535 };

    fn shown(&self) -> Signal
        ensures { result ≡ model.shown self.now };

    fn read(&self, number: u8) -> Result<Reading, Refusal>
        ensures { result ≡ model.reading self.now number };

    // The number stands beside the call: a block alone is asked without one.
    fn ask(&mut self, number: u8, ask: Ask) -> Result<(), Refusal>
        ensures answer { result ≡ model.answer self.old number ask }
        ensures after { self.new ≡ model.asked self.old number ask };

    fn round(&mut self, cas_in: Signal)
        ensures { self.new ≡ model.rounded self.old cas_in };

    ghost meaning: { Meaning model };
}
