//! Units, by code and by letter.
ghost use Rattle.std.specs.Prelude.{◌≡◌, Some};
ghost use Rattle.std.specs.Result.{result_ok};
ghost use Rattle.std.specs.Char.{encode_utf8};
ghost use Rattle.record.specs.Refusals.{refused};
ghost use Rattle.record.specs.Making.{unit_refusal};
ghost use Rattle.record.specs.Units.{code_of, letter_of, unit_at, unit_of};

use crate::refusals::RecordError;
use std::fmt;

/// The unit of a value. A unit travels as its code, 0 to 7 in this order, and people write its letter.
#[derive(Clone, Copy, PartialEq, Eq, Debug)]
pub enum Unit {
    Plain,
    Metre,
    Bar,
    Celsius,
    Second,
    Ampere,
    Volt,
    Revolution,
}

/// The letter that stands for the unit in text.
impl From<Unit> for char {
    ghost from_gives = { λ unit letter. letter ≡ letter_of (code_of unit) };

    fn from(unit: Unit) -> char {
        match unit {
            Unit::Plain => '-',
            Unit::Metre => 'm',
            Unit::Bar => 'b',
            Unit::Celsius => 'C',
            Unit::Second => 's',
            Unit::Ampere => 'A',
            Unit::Volt => 'V',
            Unit::Revolution => 'r',
        }
    }
}

/// The unit that a letter stands for, or a refusal.
impl TryFrom<char> for Unit {
    type Error = RecordError;

    ghost try_from_gives = { λ letter r. (result_ok r ≡ unit_of letter) × (refused r ≡ unit_refusal (unit_of letter)) };

    fn try_from(letter: char) -> Result<Self, RecordError> {
        match letter {
            '-' => Ok(Unit::Plain),
            'm' => Ok(Unit::Metre),
            'b' => Ok(Unit::Bar),
            'C' => Ok(Unit::Celsius),
            's' => Ok(Unit::Second),
            'A' => Ok(Unit::Ampere),
            'V' => Ok(Unit::Volt),
            'r' => Ok(Unit::Revolution),
            _ => Err(RecordError::Unit),
        }
    }
}

/// The code of the unit in a record's bytes.
impl From<Unit> for u8 {
    ghost from_gives = { λ unit code. code ≡ code_of unit };

    fn from(unit: Unit) -> u8 {
        unit as u8
    }
}

/// The unit of a code, or a refusal.
impl TryFrom<u8> for Unit {
    type Error = RecordError;

    ghost try_from_gives = { λ code r. (result_ok r ≡ unit_at code) × (refused r ≡ unit_refusal (unit_at code)) };

    fn try_from(code: u8) -> Result<Self, RecordError> {
        match code {
            0 => Ok(Unit::Plain),
            1 => Ok(Unit::Metre),
            2 => Ok(Unit::Bar),
            3 => Ok(Unit::Celsius),
            4 => Ok(Unit::Second),
            5 => Ok(Unit::Ampere),
            6 => Ok(Unit::Volt),
            7 => Ok(Unit::Revolution),
            _ => Err(RecordError::Unit),
        }
    }
}

/// The letter.
impl fmt::Display for Unit {
    ghost output = { λ unit. Some (encode_utf8 (letter_of (code_of unit))) };

    fn fmt<W: fmt::Write>(&self, f: &mut fmt::Formatter<W>) -> fmt::Result {
        f.write_char(char::from(*self))
    }
}
