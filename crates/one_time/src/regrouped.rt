//! Bits that come in digits of one width and go out in digits of another.

ghost use Rattle.std.specs.Prelude.{◌≡◌, ℕ, ◌+◌, ◌^◌, ◌<◌, ◌≤◌, OnOk};

use login_base::Memory;
use std::alloc::Global;

/// Digits that were handed out, and the last bits, which are too few for a digit.
#[derive(Drop)]
pub(crate) struct Regrouped {
    pub digits: Vec<u8>,
    pub held: u32,
    pub count: u32,
}

impl Regrouped {
    ghost use Rattle.one_time.specs.Base32.{Holds, Keeps, TakesIn};

    /// No bits.
    pub fn new(alloc: Global) -> Regrouped
        ensures count { result.count ≡ 0 }
        ensures held { result.held < 2 ^ result.count }
        ensures value { (w : ℕ) → Holds w result 0 0 }
    {
        Regrouped {
            digits: Vec::new(alloc),
            held: 0,
            count: 0,
        }
    }

    /// Hands out the first bits that are held as one digit.
    fn hand_out(&mut self, width: u32) -> Result<(), Memory>
        requires narrow { width ≤ 8 }
        requires enough { width ≤ self.old.count }
        requires small { self.old.count < 32 }
        requires held { self.old.held < 2 ^ self.old.count }
        ensures count { OnOk result (self.new.count + width ≡ self.old.count) }
        ensures held { OnOk result (self.new.held < 2 ^ self.new.count) }
        ensures value { OnOk result (Keeps width self.old self.new) }
    {
        let rest = self.count - width;
        let unit = 2u32.pow(rest);
        self.digits.push((self.held / unit) as u8)?;
        self.held %= unit;
        self.count = rest;
        Ok(())
    }

    /// Takes in a digit of `bits` bits, and hands out what makes whole digits of `width` bits.
    pub fn take_in(&mut self, digit: u8, bits: u32, width: u32) -> Result<(), Memory>
        requires narrow { width ≤ 8 }
        requires few { bits ≤ 8 }
        requires digit { digit < 2 ^ bits }
        requires wide { 1 ≤ width }
        requires ready { self.old.count < width }
        requires held { self.old.held < 2 ^ self.old.count }
        ensures ready { OnOk result (self.new.count < width) }
        ensures held { OnOk result (self.new.held < 2 ^ self.new.count) }
        ensures value { OnOk result (TakesIn width self.old self.new bits digit) }
    {
        self.held = self.held * 2u32.pow(bits) + u32::from(digit);
        self.count += bits;
        while self.count >= width {
            self.hand_out(width)?;
        }
        Ok(())
    }

    /// The digits that were handed out.
    pub fn into_digits(self) -> Vec<u8>
        ensures value { result.items ≡ self.digits.items }
    {
        let Regrouped { digits, .. } = self;
        digits
    }
}
