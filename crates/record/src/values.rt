//! When two records are the same.
ghost use Rattle.std.specs.Prelude.{◌≡◌, ◌^◌, pos};
ghost use Rattle.record.specs.Values.{Equivalence, equal, same, scaled};
ghost use Rattle.record.specs.Tens.{raised, ten_thousandths};

use crate::fields::{Exponent, Number, Record};

// A table, and no `pow`: that loops over the exponent's bits, twice a comparison.
const POWERS_OF_TEN: [i64; 9] = [
    1,
    10,
    100,
    1_000,
    10_000,
    100_000,
    1_000_000,
    10_000_000,
    100_000_000,
];

impl Exponent {
    // 10^(exponent + 4)
    fn raised_power(self) -> i64
        ensures { result ≡ pos (10 ^ raised self.value) }
    {
        POWERS_OF_TEN[(self.value + 4) as usize]
    }
}

// number × 10^exponent × 10,000: whole for every exponent, and at most 9 × 10^14.
#[tactic(auto, using(crate::proofs::Scaling::value_fits))]
fn ten_thousandths(number: Number, exponent: Exponent) -> i64
    ensures { result ≡ ten_thousandths number.value exponent.value }
{
    i64::from(number.value) * exponent.raised_power()
}

impl Record {
    /// Whether two records are the same: parameter and unit agree and the values are equal. 50 with
    /// exponent -1 is the same as 5 with 0; names play no part.
    pub fn same(&self, other: &Record) -> bool
        ensures { result ≡ same self.now other.now }
    {
        self.parameter == other.parameter && self.unit == other.unit && self.same_value(other)
    }

    // Whether the values are equal, whatever their exponents.
    #[tactic(auto, using(crate::proofs::Scaling::bits_tell, crate::proofs::Scaling::tens_tell))]
    fn same_value(&self, other: &Record) -> bool
        ensures { result ≡ equal (scaled self.now.number.value self.now.exponent.value) (scaled other.now.number.value other.now.exponent.value) }
    {
        ten_thousandths(self.number, self.exponent) == ten_thousandths(other.number, other.exponent)
    }
}

/// A theorem, with nothing to run: every record is the same as itself, sameness holds either way
/// round, and two records that are the same as a third are the same.
#[tactic(auto, using(crate::proofs::Sameness::same_equivalence))]
pub fn same_is_an_equivalence()
    ensures { Equivalence same }
{}
