// A record as four rows of six bytes.
ghost use Rattle.std.specs.Prelude.{◌≡◌, ℕ, ◌<◌, take, slice_index};
ghost use Rattle.std.specs.List.{flat_map};
ghost use Rattle.field.specs.Polynomials.{byte};
ghost use Rattle.parity.specs.Rows.{six, row_byte, rows_of, listed, flat, combination, combinations};

use field::{Matrix, combined};
use std::array;

/// A quarter of a record.
#[derive(Clone, Copy)]
pub struct Row {
    pub bytes: [u8; 6],
}

/// A record, or the four pieces that it is joined from.
/// Four fields and no array: over an array an encoder's proof needs an answer of ours, at which a wrong factor would be refused.
#[derive(Clone, Copy)]
pub struct Rows {
    pub first: Row,
    pub second: Row,
    pub third: Row,
    pub fourth: Row,
}

impl Row {
    // Row j of a record.
    fn at(x: [u8; 24], j: usize) -> Row
        requires { j < 4 }
        ensures { result.bytes ≡ six (row_byte x j) }
    {
        Row {
            bytes: array::from_fn(|b| x[j * 6 + b]),
        }
    }

    // The row as the six low bytes of a word, which holds them all at once.
    fn word(self) -> u64
        ensures { (b : ℕ) → b < 6 → byte result b ≡ slice_index self.bytes b }
    {
        let [a, b, c, d, e, f] = self.bytes;
        u64::from_le_bytes([a, b, c, d, e, f, 0, 0])
    }

    // The row of the six low bytes of a word.
    fn of_word(word: u64) -> Row
        ensures { result.bytes ≡ six (byte word) }
    {
        let [a, b, c, d, e, f, _, _] = word.to_le_bytes();
        Row {
            bytes: [a, b, c, d, e, f],
        }
    }

    // The row in front of 18 bytes that do not count.
    #[tactic(auto, using(crate::proofs::Fronts::front))]
    pub(crate) fn widened(self) -> [u8; 24]
        ensures { take 6 result ≡ self.bytes }
    {
        let mut wide = [0; 24];
        wide[..6].copy_from_slice(&self.bytes);
        wide
    }
}

// Four rows in one array.
fn joined(rows: [[u8; 6]; 4]) -> [u8; 24]
    ensures { result ≡ flat_map (λ row. row) rows }
{
    let mut whole = [0; 24];
    whole.copy_from_slice(rows.as_flattened());
    whole
}

impl Rows {
    /// The rows of a record.
    pub fn of(x: [u8; 24]) -> Rows
        ensures { result ≡ rows_of x }
    {
        Rows {
            first: Row::at(x, 0),
            second: Row::at(x, 1),
            third: Row::at(x, 2),
            fourth: Row::at(x, 3),
        }
    }

    /// The rows, one after the other.
    pub fn flat(self) -> [u8; 24]
        ensures { result ≡ flat (listed self) }
    {
        let a = self.first.bytes;
        let b = self.second.bytes;
        let c = self.third.bytes;
        let d = self.fourth.bytes;
        joined([a, b, c, d])
    }

    /// The sum of the rows, each times its factor.
    pub fn combination(self, factors: [u8; 4]) -> Row
        ensures { result.bytes ≡ combination factors (listed self) }
    {
        let words = [
            self.first.word(),
            self.second.word(),
            self.third.word(),
            self.fourth.word(),
        ];
        Row::of_word(combined(factors, words))
    }

    /// The four sums of the rows that a matrix has the factors of.
    pub fn solved(self, matrix: Matrix) -> Rows
        ensures { listed result ≡ combinations matrix (listed self) }
    {
        Rows {
            first: self.combination(matrix[0]),
            second: self.combination(matrix[1]),
            third: self.combination(matrix[2]),
            fourth: self.combination(matrix[3]),
        }
    }
}
