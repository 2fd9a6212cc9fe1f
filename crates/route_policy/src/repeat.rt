//! How many times an AS is put in front of a path.

ghost use Rattle.std.specs.Prelude.{◌≡◌};
ghost use Rattle.std.specs.Option.{SomeIff};
ghost use Rattle.route_policy.specs.Repeats.{IsRepeat};

use std::marker::Model;

/// How many times an AS is put in front of a path: 1 to 16.
#[derive(Clone, Copy, Debug, PartialEq, Eq)]
pub struct Repeat {
    count: u8,
}

impl Model for Repeat {
    ghost use Rattle.std.specs.Prelude.{ℕ};
    ghost use Rattle.route_policy.specs.Repeats.{IsRepeat};

    ghost Value = { ℕ };

    ghost view = { λ r. r.count };

    ghost invariant = { λ r. IsRepeat r.count };

    ghost inverse = { λ n. record { count = n } };
}

impl Repeat {
    /// That many times. None outside 1 to 16.
    pub fn new(count: u8) -> Option<Repeat>
        ensures { SomeIff result (IsRepeat count) count }
    {
        if 1 <= count && count <= 16 {
            Some(Repeat { count })
        } else {
            None
        }
    }

    /// How many times, 1 to 16.
    pub fn count(self) -> u8
        ensures value { result ≡ self }
        ensures repeat { IsRepeat result }
    {
        self.count
    }
}
