// Codes by a matrix of factors.
ghost use Rattle.std.specs.Prelude.{◌≡◌, ℕ, ◌<◌, refl, T, List, [], length, slice_index_or};
ghost use Rattle.code.specs.Meaning.{Chosen};
ghost use Rattle.field.specs.Matrix.{inverses};
ghost use Rattle.parity.specs.Rows.{chosen_rows, row_code};
ghost use Rattle.parity.specs.Solvable.{solvable};
ghost use Rattle.parity.specs.Lawfully;

use crate::rows::Rows;
use code::Code;
use field::{Matrix, inverted};

/// A matrix with a row of four factors for each node: its piece is the sum of a record's rows, each times its factor.
///
/// An implementation gives the matrix and the counts, and computes `solvable`: then `RowCode` is a code.
pub trait Factors {
    /// how many nodes there are
    const N: usize;
    /// how many nodes may be silent
    const F: usize;

    ghost matrix: { List (List ℕ) };

    // The values of the constants.
    ghost N: { ℕ };

    ghost F: { ℕ };

    /// The factors of a piece that the code has.
    fn factors(number: u8) -> [u8; 4]
        ensures { number < length matrix → result ≡ slice_index_or matrix number [] };

    /// The matrix that makes rows of the pieces at four rising numbers.
    /// It is found here whenever it is asked for; an implementation may keep a table of them.
    fn solution(numbers: [u8; 4]) -> Matrix
        ensures { Chosen 4 (length matrix) numbers → T (inverses (chosen_rows matrix numbers) result) }
    {
        // Written out: a closure in `numbers.map` does not say what `factors` promised.
        inverted([
            Self::factors(numbers[0]),
            Self::factors(numbers[1]),
            Self::factors(numbers[2]),
            Self::factors(numbers[3]),
        ])
    }

    ghost solves: { T (solvable matrix F) };

    ghost n_is: { N ≡ length matrix };
}

/// The code of a matrix of factors. A record has four rows, so four pieces give it back.
pub struct RowCode<M>(M);

impl<M: Factors> Code for RowCode<M> {
    const K: usize = 4;

    const N: usize = M::N;

    const F: usize = M::F;

    ghost meaning = { row_code M.Factors.matrix M.Factors.F };

    ghost K = { 4 };

    ghost N = { M.Factors.N };

    ghost F = { M.Factors.F };

    ghost lawful = { Lawfully.lawful M.Factors.matrix M.Factors.F M.Factors.solves };

    ghost k_is = { refl };

    ghost n_is = { M.Factors.n_is };

    ghost f_is = { refl };

    fn encode(whole: [u8; 24], number: u8) -> [u8; 24] {
        Rows::of(whole).combination(M::factors(number)).widened()
    }

    fn decode(numbers: [u8; 8], parts: [u8; 24]) -> [u8; 24] {
        let [a, b, c, d, ..] = numbers;
        let solution = M::solution([a, b, c, d]);
        Rows::of(parts).solved(solution).flat()
    }
}
