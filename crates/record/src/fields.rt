//! The record and its parts, whose types hold their ranges.
ghost use Rattle.std.specs.Prelude.{◌≡◌, true, pos, negsuc, ◌≤ℤ◌, Some};
ghost use Rattle.std.specs.Fmt.{signed_decimal};
ghost use Rattle.record.specs.Ranges.{named, shown};

use crate::units::Unit;
use std::fmt;

/// The decimal exponent of a value, -4 to 4.
#[derive(Clone, Copy, PartialEq, Eq, PartialOrd, Ord, Debug)]
pub struct Exponent {
    pub value: i8,
    ghost low: { negsuc 3 ≤ℤ value },
    ghost high: { value ≤ℤ pos 4 },
}

/// Sixteen printable bytes, 32 to 126 each; a shorter name ends in spaces.
#[derive(Clone, Copy, PartialEq, Eq, Debug)]
pub struct Name {
    pub bytes: [u8; 16],
    ghost readable: { named bytes ≡ true },
}

/// The number of a value before its exponent is applied, -9,000,000 to 9,000,000.
#[derive(Clone, Copy, PartialEq, Eq, PartialOrd, Ord, Debug)]
pub struct Number {
    pub value: i32,
    ghost low: { negsuc 8999999 ≤ℤ value },
    ghost high: { value ≤ℤ pos 9000000 },
}

/// One parameter record. Its value is number × 10^exponent, in its unit.
/// `==` compares all five parts; `same` compares what they mean.
#[derive(Clone, Copy, PartialEq, Eq, Debug)]
pub struct Record {
    pub parameter: u16,
    pub unit: Unit,
    pub exponent: Exponent,
    pub name: Name,
    pub number: Number,
}

/// The exponent in decimal.
impl fmt::Display for Exponent {
    ghost output = { λ x. Some (signed_decimal x.value) };

    fn fmt<W: fmt::Write>(&self, f: &mut fmt::Formatter<W>) -> fmt::Result {
        let exponent = self.value;
        write!(f, "{exponent}")
    }
}

/// The number in decimal.
impl fmt::Display for Number {
    ghost output = { λ x. Some (signed_decimal x.value) };

    fn fmt<W: fmt::Write>(&self, f: &mut fmt::Formatter<W>) -> fmt::Result {
        let number = self.value;
        write!(f, "{number}")
    }
}

/// The name without its ending spaces.
impl fmt::Display for Name {
    ghost output = { λ x. Some (shown x.bytes) };

    fn fmt<W: fmt::Write>(&self, f: &mut fmt::Formatter<W>) -> fmt::Result {
        f.write_str(self.text())
    }
}

impl Name {
    // The name without its ending spaces, as text.
    fn text(&self) -> &str
        ensures { result.now ≡ shown self.now.bytes }
    {
        str::from_utf8(self.bytes.trim_ascii_end()).unwrap()
    }
}
