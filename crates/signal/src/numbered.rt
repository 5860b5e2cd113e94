// A refusal's number, for every kind of refusal that always has one.
ghost use Rattle.std.specs.Prelude.{◌≡◌, ℕ};

// A number, once given out, keeps its meaning. Each kind of refusal says its own: a type parameter cannot be cast to a number.
pub trait Numbered: Sized {
    ghost number_of: { Self → ℕ };

    fn number(self) -> u8
        ensures { result ≡ number_of self };
}
