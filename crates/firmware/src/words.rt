//! What is printed of records and rounds.
ghost use Rattle.std.specs.Prelude.{◌≤◌};

use record::{Record, Unit};
use segment::Round;
use std::fmt;

/// A record's value, written out in its unit: 50 with exponent -1 is 5.0.
#[derive(Clone, Copy)]
pub(crate) struct Value(pub Record);

/// A record's value as it travels: a number and a decimal exponent.
#[derive(Clone, Copy)]
pub(crate) struct Parts(pub Record);

impl fmt::Display for Value {
    fn fmt<W: fmt::Write>(&self, f: &mut fmt::Formatter<W>) -> fmt::Result {
        let Record {
            unit,
            exponent,
            number,
            ..
        } = self.0;
        let places = usize::from(exponent.value.unsigned_abs());
        let scale = power_of_ten(places);
        let name = name_of(unit);
        if exponent.value >= 0 {
            let whole = i64::from(number.value) * i64::from(scale);
            return write!(f, "{whole} {name}");
        }
        let sign = if number.value < 0 { "-" } else { "" };
        let size = number.value.unsigned_abs();
        let (whole, part) = (size / scale, size % scale);
        write!(f, "{sign}{whole}.{part:0places$} {name}")
    }
}

impl fmt::Display for Parts {
    fn fmt<W: fmt::Write>(&self, f: &mut fmt::Formatter<W>) -> fmt::Result {
        let Record {
            unit,
            exponent,
            number,
            ..
        } = self.0;
        write!(f, "{number} x 10^{exponent} {}", name_of(unit))
    }
}

// 10 to the power of the size of an exponent, which is 4 at most.
fn power_of_ten(places: usize) -> u32
    ensures positive { 1 ≤ result }
    ensures small { result ≤ 10000 }
{
    match places {
        0 => 1,
        1 => 10,
        2 => 100,
        3 => 1_000,
        _ => 10_000,
    }
}

fn name_of(unit: Unit) -> &'static str {
    match unit {
        Unit::Plain => "of no unit",
        Unit::Metre => "m",
        Unit::Bar => "bar",
        Unit::Celsius => "degrees Celsius",
        Unit::Second => "s",
        Unit::Ampere => "A",
        Unit::Volt => "V",
        Unit::Revolution => "revolutions",
    }
}

/// What a node does in a round.
pub(crate) fn does(round: Round) -> &'static str {
    match round {
        Round::Look => "look",
        Round::Store => "store",
        Round::Settle => "settle",
    }
}
