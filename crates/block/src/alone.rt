// An end that is one block: what is its own, and the lower end that it then is.
ghost use Rattle.std.specs.Prelude.{◌≡◌, ℕ};
ghost use Rattle.block.specs.Alone.{Own, AloneFacts, alone_model};
ghost use Rattle.block.specs.Calls.{answer_of, after_ask};
ghost use Rattle.block.specs.AloneMeaning.{alone_meaning};

use crate::end::LowerEnd;
use crate::kinds::{Ask, Block, Reading, Refusal};
use signal::Signal;

// Each end lends its block and hands a call on to it in two lines of its own, since the field is its own.
pub trait OneBlock {
    ghost own: { Own Self };

    // The number N.
    const SETTLING: u16;

    ghost SETTLING: { ℕ };

    fn block(&self) -> &Block
        ensures { result.now ≡ own.the_block self.now };

    fn ask_block(&mut self, ask: Ask) -> Result<(), Refusal>
        ensures answer { result ≡ answer_of (own.the_block self.old) ask }
        ensures after { self.new ≡ own.with_block self.old (after_ask (own.the_block self.old) ask) };

    fn run(&mut self, cas_in: Signal)
        ensures { self.new ≡ own.rounded self.old cas_in };

    ghost settles: { own.number ≡ SETTLING };

    ghost facts: { AloneFacts own };
}

impl<S: OneBlock> LowerEnd for S {
    ghost model = { alone_model S.own };

    ghost meaning = { alone_meaning S.own S.facts };

    fn blocks(&self) -> u8 {
        1
    }

    fn settling(&self) -> u16 {
        S::SETTLING
    }

    fn shown(&self) -> Signal {
        self.block().shown()
    }

    fn read(&self, number: u8) -> Result<Reading, Refusal> {
        if number != 0 {
            return Err(Refusal::NoSuchBlock);
        }
        Ok(self.block().read())
    }

    fn ask(&mut self, number: u8, ask: Ask) -> Result<(), Refusal> {
        if number != 0 {
            return Err(Refusal::NoSuchBlock);
        }
        self.ask_block(ask)
    }

    fn round(&mut self, cas_in: Signal) {
        self.run(cas_in);
    }
}
