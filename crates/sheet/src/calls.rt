// The calls that a record gives, in bit order, and their words.
ghost use Rattle.std.specs.Prelude.{◌≡◌, List, [], ◌∷◌, length, MatchOption};
ghost use Rattle.std.specs.Option.{unwrap_or};
ghost use Rattle.sheet.specs.Calls.{calls_of, calls_left, call_word};
ghost use Rattle.std.specs.Iterator.{at_most};

use crate::record::{Call, Record};

// The calls of a record that are still to come.
#[derive(Clone, Copy)]
pub struct Calls {
    rest: Record,
}

impl Record {
    // The block that the record's calls name: 0, the head, where it names none.
    pub fn block_number(&self) -> u8
        ensures { result ≡ unwrap_or self.now.block 0 }
    {
        self.block.unwrap_or(0)
    }

    // The record's calls, in the order in which they run.
    pub fn calls(&self) -> Calls
        ensures { calls_left result ≡ calls_of self.now }
    {
        Calls { rest: *self }
    }
}

impl Iterator for Calls {
    type Item = Call;

    ghost next_gives = { λ s r t. MatchOption r ((calls_left s ≡ []) × (calls_left t ≡ [])) (λ c. calls_left s ≡ c ∷ calls_left t) };

    ghost remaining = { λ s. at_most (length (calls_left s)) };

    // Read and emptied by hand: by `take` the calls of a round alone take more than one and a half times the time.
    fn next(&mut self) -> Option<Call> {
        if let Some(byte) = self.rest.target {
            self.rest.target = None;
            return Some(Call::Target(byte));
        }
        if let Some(byte) = self.rest.switch {
            self.rest.switch = None;
            return Some(Call::Switch(byte));
        }
        if let Some(input) = self.rest.input {
            self.rest.input = None;
            return Some(Call::Input(input));
        }
        if let Some(value) = self.rest.setpoint {
            self.rest.setpoint = None;
            return Some(Call::Setpoint(value));
        }
        if let Some(value) = self.rest.output {
            self.rest.output = None;
            return Some(Call::Output(value));
        }
        if self.rest.round {
            self.rest.round = false;
            return Some(Call::Round);
        }
        None
    }
}

impl Call {
    // The call's word, as it is printed.
    pub fn word(self) -> &'static [u8]
        ensures { result.now ≡ call_word self }
    {
        match self {
            Call::Target(_) => b"target",
            Call::Switch(_) => b"switch",
            Call::Input(_) => b"input",
            Call::Setpoint(_) => b"setpoint",
            Call::Output(_) => b"output",
            Call::Round => b"round",
        }
    }
}
