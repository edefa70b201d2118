//! The number that a caller gives an act or a load, so that it is done once though it comes twice.
ghost use Rattle.std.specs.Prelude.{ℕ, ◌≡◌, SomeIff};
ghost use Rattle.tc_store.specs.CallNumbers.{IsCallNumber};

use std::marker::Model;

/// The number that a caller gives an act or a load: 1 to 4,294,967,295. A contract sees it as the number itself.
#[derive(Clone, Copy, Debug, PartialEq, Eq)]
pub struct CallNumber {
    number: u32,
}

impl Model for CallNumber {
    ghost Value = { ℕ };

    ghost view = { λ n. n.number };

    ghost invariant = { λ n. IsCallNumber n.number };

    ghost inverse = { λ n. record { number = n } };
}

impl CallNumber {
    /// The value with this number; `None` where it is out of range.
    pub fn new(number: u32) -> Option<CallNumber>
        ensures { SomeIff result (IsCallNumber number) number }
    {
        if number != 0 {
            Some(CallNumber { number })
        } else {
            None
        }
    }

    /// The number, which is in range.
    pub fn get(self) -> u32
        ensures value { result ≡ self }
        ensures range { IsCallNumber self }
    {
        self.number
    }
}
