//! Records from their parts.
ghost use Rattle.std.specs.Prelude.{◌≡◌, ◌&&◌, IfOk, Some, nat_le};
ghost use Rattle.record.specs.Ranges.{printable};
ghost use Rattle.record.specs.Refusals.{refused};
ghost use Rattle.record.specs.Units.{unit_of};
ghost use Rattle.record.specs.Making.{exponent_refusal, name_refusal, number_refusal, parts, parts_of, parts_refusal};

use crate::fields::{Exponent, Name, Number, Record};
use crate::refusals::RecordError;
use crate::units::Unit;

// Exponent and number are tested each in its own words: one text for both would take the range, the refusal and the
// narrower integer as parameters, and say it no shorter.
impl Exponent {
    /// The exponent of this value, or a refusal.
    pub fn new(value: i32) -> Result<Exponent, RecordError>
        ensures refuses { refused result ≡ exponent_refusal value }
        ensures holds { IfOk result (λ x. x.value ≡ value) }
    {
        if !(-4..=4).contains(&value) {
            return Err(RecordError::Exponent);
        }
        Ok(Exponent { value: value as i8 })
    }
}

impl Number {
    /// The number of this value, or a refusal.
    pub fn new(value: i32) -> Result<Number, RecordError>
        ensures refuses { refused result ≡ number_refusal value }
        ensures holds { IfOk result (λ x. x.value ≡ value) }
    {
        if !(-9_000_000..=9_000_000).contains(&value) {
            return Err(RecordError::Number);
        }
        Ok(Number { value })
    }
}

// Whether a byte is a printable character.
fn is_printable(b: u8) -> bool
    ensures { result ≡ (nat_le 32 b && nat_le b 126) }
{
    (32..=126).contains(&b)
}

// Whether each byte is a printable character.
fn all_printable(bytes: &[u8]) -> bool
    ensures { result ≡ printable bytes.now }
{
    bytes.iter().all(|b| is_printable(*b))
}

impl Name {
    /// The name of sixteen printable bytes, or a refusal.
    pub fn new(bytes: &[u8]) -> Result<Name, RecordError>
        ensures refuses { refused result ≡ name_refusal bytes.now }
        ensures holds { IfOk result (λ x. x.bytes ≡ bytes.now) }
    {
        match <[u8; 16]>::try_from(bytes) {
            Ok(bytes) if all_printable(&bytes) => Ok(Name { bytes }),
            _ => Err(RecordError::Name),
        }
    }
}

impl Record {
    /// A record of its parts, or the refusal of the first part that is none.
    pub fn new(
        parameter: u16,
        letter: char,
        exponent: i32,
        name: &[u8],
        number: i32,
    ) -> Result<Record, RecordError>
        ensures refuses { refused result ≡ parts_refusal (parts parameter (unit_of letter) exponent name.now number) }
        ensures holds { IfOk result (λ x. parts_of x ≡ parts parameter (unit_of letter) exponent name.now number) }
    {
        Record::of_parts(parameter, Unit::try_from(letter)?, exponent, name, number)
    }

    // The parts after the unit, in the order in which they are refused.
    // They are five parameters and no struct, which would be built twice and taken apart once, for one call in a line each.
    pub(crate) fn of_parts(
        parameter: u16,
        unit: Unit,
        exponent: i32,
        name: &[u8],
        number: i32,
    ) -> Result<Record, RecordError>
        ensures refuses { refused result ≡ parts_refusal (parts parameter (Some unit) exponent name.now number) }
        ensures holds { IfOk result (λ x. parts_of x ≡ parts parameter (Some unit) exponent name.now number) }
    {
        Ok(Record {
            parameter,
            unit,
            exponent: Exponent::new(exponent)?,
            name: Name::new(name)?,
            number: Number::new(number)?,
        })
    }
}
