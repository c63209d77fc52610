ghost use Rattle.std.specs.Prelude.{◌≡◌, ◌<◌, ◌-◌, ◌^◌, Some, None, if◌then◌else◌, nat_lt, min, max};

use std::marker::Model;

/// The number of moments.
const END: u64 = 1 << 53;

/// A moment in milliseconds, below 2^53. A double-precision number holds each exactly.
#[derive(Clone, Copy, Debug, PartialEq, Eq)]
pub struct Moment {
    millis: u64,
}

impl Model for Moment {
    ghost use Rattle.std.specs.Prelude.{ℕ, ◌<◌, ◌^◌};

    ghost Value = { ℕ };

    ghost view = { λ m. m.millis };

    ghost invariant = { λ m. m.millis < 2 ^ 53 };

    ghost inverse = { λ n. record { millis = n } };
}

impl Moment {
    pub const ZERO: Moment = Moment { millis: 0 };

    /// The moment of so many milliseconds, or none where that is out of the range.
    pub fn new(millis: u64) -> Option<Moment>
        ensures value { result ≡ (if nat_lt millis (2 ^ 53) then Some millis else None) }
    {
        if millis < END {
            Some(Moment { millis })
        } else {
            None
        }
    }

    /// The moment of so many milliseconds, or the last one.
    pub fn clamped(millis: u64) -> Moment
        ensures value { result ≡ min millis (2 ^ 53 - 1) }
    {
        Moment {
            millis: millis.min(END - 1),
        }
    }

    pub fn millis(self) -> u64
        ensures value { result ≡ self }
        ensures small { result < 2 ^ 53 }
    {
        self.millis
    }

    /// The later one of two moments.
    pub fn later(self, other: Moment) -> Moment
        ensures value { result ≡ max self other }
    {
        Moment {
            millis: self.millis.max(other.millis),
        }
    }
}
