//! Numbers that keep their range. A contract sees each of them as the number itself.
ghost use Rattle.std.specs.Prelude.{◌≡◌, ℕ, ℤ, SomeIff};
ghost use Rattle.tc_types.specs.Numbers.{IsMoment, IsOffset, IsRequestNumber, IsApid, IsSequenceCount, IsSteps, IsFailureCode, IsService, IsSubtype};

use std::marker::Model;

/// The greatest value that a `Moment` has.
pub const LARGEST_MOMENT: u32 = 4_102_444_799;

/// A moment or a release time: whole Unix seconds, 0 to 4,102,444,799.
#[derive(Clone, Copy, Debug, PartialEq, Eq)]
pub struct Moment {
    seconds: u32,
}

impl Model for Moment {
    ghost Value = { ℕ };

    ghost view = { λ n. n.seconds };

    ghost invariant = { λ n. IsMoment n.seconds };

    ghost inverse = { λ n. record { seconds = n } };
}

impl Moment {
    /// The value with this number; `None` where it is out of range.
    pub fn new(seconds: u32) -> Option<Moment>
        ensures { SomeIff result (IsMoment seconds) seconds }
    {
        if seconds <= LARGEST_MOMENT {
            Some(Moment { seconds })
        } else {
            None
        }
    }

    /// The number, which is in range.
    pub fn get(self) -> u32
        ensures value { result ≡ self }
        ensures range { IsMoment self }
    {
        self.seconds
    }
}

/// The greatest value that an `Offset` has.
pub const LARGEST_OFFSET: i64 = 4_102_444_799;

/// A time offset: -4,102,444,799 to 4,102,444,799 seconds.
#[derive(Clone, Copy, Debug, PartialEq, Eq)]
pub struct Offset {
    seconds: i64,
}

impl Model for Offset {
    ghost Value = { ℤ };

    ghost view = { λ n. n.seconds };

    ghost invariant = { λ n. IsOffset n.seconds };

    ghost inverse = { λ n. record { seconds = n } };
}

impl Offset {
    /// The value with this number; `None` where it is out of range.
    pub fn new(seconds: i64) -> Option<Offset>
        ensures { SomeIff result (IsOffset seconds) seconds }
    {
        if -LARGEST_OFFSET <= seconds && seconds <= LARGEST_OFFSET {
            Some(Offset { seconds })
        } else {
            None
        }
    }

    /// The number, which is in range.
    pub fn get(self) -> i64
        ensures value { result ≡ self }
        ensures range { IsOffset self }
    {
        self.seconds
    }
}

/// The greatest value that a `RequestNumber` has.
pub const MOST_REQUESTS: u32 = 65_535;

/// The number of an entered request: 1 to 65,535, in order of entry.
#[derive(Clone, Copy, Debug, PartialEq, Eq)]
pub struct RequestNumber {
    number: u32,
}

impl Model for RequestNumber {
    ghost Value = { ℕ };

    ghost view = { λ n. n.number };

    ghost invariant = { λ n. IsRequestNumber n.number };

    ghost inverse = { λ n. record { number = n } };
}

impl RequestNumber {
    /// The value with this number; `None` where it is out of range.
    pub fn new(number: u32) -> Option<RequestNumber>
        ensures { SomeIff result (IsRequestNumber number) number }
    {
        if number != 0 && number <= MOST_REQUESTS {
            Some(RequestNumber { number })
        } else {
            None
        }
    }

    /// The number, which is in range.
    pub fn get(self) -> u32
        ensures value { result ≡ self }
        ensures range { IsRequestNumber self }
    {
        self.number
    }
}

/// An application process identifier (CCSDS 133.0-B, 4.1.3.3.4): 0 to 2,047.
#[derive(Clone, Copy, Debug, PartialEq, Eq)]
pub struct Apid {
    number: u16,
}

impl Model for Apid {
    ghost Value = { ℕ };

    ghost view = { λ n. n.number };

    ghost invariant = { λ n. IsApid n.number };

    ghost inverse = { λ n. record { number = n } };
}

impl Apid {
    /// The value with this number; `None` where it is out of range.
    pub fn new(number: u16) -> Option<Apid>
        ensures { SomeIff result (IsApid number) number }
    {
        if number < 2_048 {
            Some(Apid { number })
        } else {
            None
        }
    }

    /// The number, which is in range.
    pub fn get(self) -> u16
        ensures value { result ≡ self }
        ensures range { IsApid self }
    {
        self.number
    }
}

/// A packet sequence count (CCSDS 133.0-B, 4.1.3.4.3): 0 to 16,383.
#[derive(Clone, Copy, Debug, PartialEq, Eq)]
pub struct SequenceCount {
    number: u16,
}

impl Model for SequenceCount {
    ghost Value = { ℕ };

    ghost view = { λ n. n.number };

    ghost invariant = { λ n. IsSequenceCount n.number };

    ghost inverse = { λ n. record { number = n } };
}

impl SequenceCount {
    /// The value with this number; `None` where it is out of range.
    pub fn new(number: u16) -> Option<SequenceCount>
        ensures { SomeIff result (IsSequenceCount number) number }
    {
        if number < 16_384 {
            Some(SequenceCount { number })
        } else {
            None
        }
    }

    /// The number, which is in range.
    pub fn get(self) -> u16
        ensures value { result ≡ self }
        ensures range { IsSequenceCount self }
    {
        self.number
    }
}

/// A number of progress steps: 1 to 9 (this desk's own).
#[derive(Clone, Copy, Debug, PartialEq, Eq)]
pub struct Steps {
    number: u8,
}

impl Model for Steps {
    ghost Value = { ℕ };

    ghost view = { λ n. n.number };

    ghost invariant = { λ n. IsSteps n.number };

    ghost inverse = { λ n. record { number = n } };
}

impl Steps {
    /// The value with this number; `None` where it is out of range.
    pub fn new(number: u8) -> Option<Steps>
        ensures { SomeIff result (IsSteps number) number }
    {
        if number != 0 && number <= 9 {
            Some(Steps { number })
        } else {
            None
        }
    }

    /// The number, which is in range.
    pub fn get(self) -> u8
        ensures value { result ≡ self }
        ensures range { IsSteps self }
    {
        self.number
    }
}

/// The code of a failure report: 16 to 255 (this desk's own).
#[derive(Clone, Copy, Debug, PartialEq, Eq)]
pub struct FailureCode {
    number: u8,
}

impl Model for FailureCode {
    ghost Value = { ℕ };

    ghost view = { λ n. n.number };

    ghost invariant = { λ n. IsFailureCode n.number };

    ghost inverse = { λ n. record { number = n } };
}

impl FailureCode {
    /// The value with this number; `None` where it is out of range.
    pub fn new(number: u8) -> Option<FailureCode>
        ensures { SomeIff result (IsFailureCode number) number }
    {
        if number >= 16 {
            Some(FailureCode { number })
        } else {
            None
        }
    }

    /// The number, which is in range.
    pub fn get(self) -> u8
        ensures value { result ≡ self }
        ensures range { IsFailureCode self }
    {
        self.number
    }
}

/// A service type of a plain request (ECSS-E-ST-70-41C, 5.3.3.1): 1 to 255 without 11, the on-board schedule's.
#[derive(Clone, Copy, Debug, PartialEq, Eq)]
pub struct Service {
    number: u8,
}

impl Model for Service {
    ghost Value = { ℕ };

    ghost view = { λ n. n.number };

    ghost invariant = { λ n. IsService n.number };

    ghost inverse = { λ n. record { number = n } };
}

impl Service {
    /// The value with this number; `None` where it is out of range.
    pub fn new(number: u8) -> Option<Service>
        ensures { SomeIff result (IsService number) number }
    {
        if number != 0 && number != 11 {
            Some(Service { number })
        } else {
            None
        }
    }

    /// The number, which is in range.
    pub fn get(self) -> u8
        ensures value { result ≡ self }
        ensures range { IsService self }
    {
        self.number
    }
}

/// A message subtype of a plain request (ECSS-E-ST-70-41C, 5.3.3.1): 1 to 255.
#[derive(Clone, Copy, Debug, PartialEq, Eq)]
pub struct Subtype {
    number: u8,
}

impl Model for Subtype {
    ghost Value = { ℕ };

    ghost view = { λ n. n.number };

    ghost invariant = { λ n. IsSubtype n.number };

    ghost inverse = { λ n. record { number = n } };
}

impl Subtype {
    /// The value with this number; `None` where it is out of range.
    pub fn new(number: u8) -> Option<Subtype>
        ensures { SomeIff result (IsSubtype number) number }
    {
        if number != 0 {
            Some(Subtype { number })
        } else {
            None
        }
    }

    /// The number, which is in range.
    pub fn get(self) -> u8
        ensures value { result ≡ self }
        ensures range { IsSubtype self }
    {
        self.number
    }
}
