// The five calls on a block, once for all kinds, and what it shows and answers when it is read.
ghost use Rattle.std.specs.Prelude.{◌≡◌};
ghost use Rattle.block.specs.declared.kinds.Refusal.TheVariants.{OutOfRange, NotATarget};
ghost use Rattle.block.specs.Shown.{shown_status, shown_signal, reading_of};
ghost use Rattle.block.specs.Calls.{refusal_number, permits, answer_of, after_ask};

use crate::kinds::{Ask, Block, Permitted, Reading, Refusal};
use signal::{Mode, Numbered, Signal, Status, TargetFault, Value, ValueFault};

impl Numbered for Refusal {
    ghost number_of = { refusal_number };

    fn number(self) -> u8 {
        self as u8
    }
}

impl From<ValueFault> for Refusal {
    ghost from_gives = { λ e r. r ≡ OutOfRange };

    fn from(e: ValueFault) -> Refusal {
        match e {
            ValueFault::OutOfRange => Refusal::OutOfRange,
        }
    }
}

impl From<TargetFault> for Refusal {
    ghost from_gives = { λ e r. r ≡ NotATarget };

    fn from(e: TargetFault) -> Refusal {
        match e {
            TargetFault::NotATarget => Refusal::NotATarget,
        }
    }
}

impl Permitted {
    pub fn permits(self, mode: Mode) -> bool
        ensures { result ≡ permits self mode }
    {
        match mode {
            Mode::OutOfService | Mode::Man | Mode::Auto => true,
            Mode::Cas => self.cas,
            Mode::IMan | Mode::Lo => false,
        }
    }
}

impl Block {
    pub fn target(&mut self, byte: u8) -> Result<(), Refusal>
        ensures answer { result ≡ answer_of self.old (Ask.Target byte) }
        ensures after { self.new ≡ after_ask self.old (Ask.Target byte) }
    {
        let mode = Mode::from_target(byte)?;
        if !self.settings.permitted.permits(mode) {
            return Err(Refusal::NotPermitted);
        }
        self.target = mode;
        Ok(())
    }

    pub fn switch(&mut self, byte: u8) -> Result<(), Refusal>
        ensures answer { result ≡ answer_of self.old (Ask.Switch byte) }
        ensures after { self.new ≡ after_ask self.old (Ask.Switch byte) }
    {
        if byte > 1 {
            return Err(Refusal::NotASwitch);
        }
        self.switch = byte == 1;
        Ok(())
    }

    pub fn input(&mut self, raw: i32, status: Status) -> Result<(), Refusal>
        ensures answer { result ≡ answer_of self.old (Ask.Input raw status) }
        ensures after { self.new ≡ after_ask self.old (Ask.Input raw status) }
    {
        if self.input.is_none() {
            return Err(Refusal::NotHere);
        }
        let value = Value::try_from(raw)?;
        self.input = Some(Signal { value, status });
        Ok(())
    }

    pub fn setpoint(&mut self, raw: i32) -> Result<(), Refusal>
        ensures answer { result ≡ answer_of self.old (Ask.Setpoint raw) }
        ensures after { self.new ≡ after_ask self.old (Ask.Setpoint raw) }
    {
        let value = Value::try_from(raw)?;
        if self.actual != Mode::Auto {
            return Err(Refusal::NotAuto);
        }
        self.at.sp = self.settings.sp_limits.pull(value);
        Ok(())
    }

    pub fn output(&mut self, raw: i32) -> Result<(), Refusal>
        ensures answer { result ≡ answer_of self.old (Ask.Output raw) }
        ensures after { self.new ≡ after_ask self.old (Ask.Output raw) }
    {
        if !self.settings.takes_output {
            return Err(Refusal::NotHere);
        }
        let value = Value::try_from(raw)?;
        if self.actual != Mode::Man {
            return Err(Refusal::NotMan);
        }
        self.at.out = self.settings.out_limits.pull(value);
        Ok(())
    }

    pub fn ask(&mut self, ask: Ask) -> Result<(), Refusal>
        ensures answer { result ≡ answer_of self.old ask }
        ensures after { self.new ≡ after_ask self.old ask }
    {
        match ask {
            Ask::Target(byte) => self.target(byte),
            Ask::Switch(byte) => self.switch(byte),
            Ask::Input(raw, status) => self.input(raw, status),
            Ask::Setpoint(raw) => self.setpoint(raw),
            Ask::Output(raw) => self.output(raw),
        }
    }

    // What stands now, not what the last round left: C8 follows the target.
    pub fn shown(&self) -> Signal
        ensures { result ≡ shown_signal self.now }
    {
        Signal {
            value: self.at.sp,
            status: self.shown_status(),
        }
    }

    pub fn shown_status(&self) -> Status
        ensures { result.0 ≡ shown_status self.now }
    {
        let status = self.actual.shown(self.target, self.cause);
        if self.hides_request && status.is(Status::INIT_REQUEST) {
            Status::NOT_INVITED
        } else {
            status
        }
    }

    pub fn read(&self) -> Reading
        ensures { result ≡ reading_of self.now }
    {
        Reading {
            target: self.target,
            actual: self.actual,
            sp: self.at.sp,
            out: self.at.out,
            shown: self.shown_status(),
        }
    }
}
