//! The number of attributes.

ghost use Rattle.std.specs.Prelude.{◌≡◌, ◌<◌, ◌^◌};

use std::marker::Model;

/// The number of attributes in a pool: how many were in it before they came. It takes four bytes.
#[derive(Clone, Copy, Debug, PartialEq, Eq, PartialOrd, Ord)]
pub struct AttrId {
    number: u32,
}

impl Model for AttrId {
    ghost use Rattle.std.specs.Prelude.{ℕ};

    ghost Value = { ℕ };

    ghost view = { λ id. id.number };

    ghost inverse = { λ n. record { number = n } };
}

impl AttrId {
    /// This number.
    pub(crate) fn of(number: usize) -> AttrId
        requires { number < 2 ^ 32 }
        ensures { result ≡ number }
    {
        AttrId {
            number: number as u32,
        }
    }

    /// The number, counted from 0.
    pub(crate) fn number(self) -> usize
        ensures { result ≡ self }
    {
        self.number as usize
    }
}
