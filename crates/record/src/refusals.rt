//! Why something is no record.
ghost use Rattle.std.specs.Prelude.{◌≡◌, Some};
ghost use Rattle.record.specs.Refusals.{refusal, sentence};

use std::error::Error;
use std::fmt;

/// Why something is no record.
#[derive(Clone, Copy, PartialEq, Eq, Debug)]
pub enum RecordError {
    /// No such unit.
    Unit = 1,
    /// An exponent that is not -4 to 4.
    Exponent = 2,
    /// A name that is not sixteen printable bytes.
    Name = 3,
    /// A number that is not -9,000,000 to 9,000,000.
    Number = 4,
    /// Bytes that are not 24.
    Length = 5,
}

impl RecordError {
    /// The refusal's number.
    pub fn number(self) -> u8
        ensures { result ≡ refusal self }
    {
        self as u8
    }
}

/// What was refused, in a few words.
impl fmt::Display for RecordError {
    ghost output = { λ e. Some (sentence e) };

    fn fmt<W: fmt::Write>(&self, f: &mut fmt::Formatter<W>) -> fmt::Result {
        f.write_str(match self {
            RecordError::Unit => "no such unit",
            RecordError::Exponent => "the exponent is not -4 to 4",
            RecordError::Name => "the name is not sixteen printable bytes",
            RecordError::Number => "the number is not -9,000,000 to 9,000,000",
            RecordError::Length => "there are not 24 bytes",
        })
    }
}

impl Error for RecordError {}
