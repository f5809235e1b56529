// The double parity of RAID 6: pieces 0 to 3 are the rows of a record, piece 4 is their sum, and piece 5 the sum of 1, 2, 4
// and 8 times the rows.
ghost use Rattle.std.specs.Prelude.{◌≡◌, ◌<◌, refl, [], IsTrue, if◌then◌else◌, slice_index_or};
ghost use Rattle.std.specs.Option.{option_map};
ghost use Rattle.parity.specs.DoubleParity.{double_parity, rising, rank_of, solutions};
ghost use Rattle.field.specs.Polynomials.{twice, times, inverse};
ghost use Rattle.field.specs.Matrix.{inverted};
ghost use Rattle.parity.specs.Solvable.{solvable};

use crate::factors::{Factors, RowCode};
use field::Matrix;

// The factors of the rows in each piece.
static FACTORS: [[u8; 4]; 6] = [
    [1, 0, 0, 0],
    [0, 1, 0, 0],
    [0, 0, 1, 0],
    [0, 0, 0, 1],
    [1, 1, 1, 1],
    [1, 2, 4, 8],
];

// How many pairs, triples and quadruples of numbers there are below each number.
static PAIRS: [usize; 6] = [0, 0, 1, 3, 6, 10];

static TRIPLES: [usize; 6] = [0, 0, 0, 1, 4, 10];

static QUADRUPLES: [usize; 6] = [0, 0, 0, 0, 1, 5];

// The inverse of the factors of the four pieces of each rank, whose numbers stand beside it.
static SOLUTIONS: [Matrix; 15] = [
    [[1, 0, 0, 0], [0, 1, 0, 0], [0, 0, 1, 0], [0, 0, 0, 1]], // 0, 1, 2, 3
    [[1, 0, 0, 0], [0, 1, 0, 0], [0, 0, 1, 0], [1, 1, 1, 1]], // 0, 1, 2, 4
    [[1, 0, 0, 0], [0, 1, 0, 0], [1, 1, 1, 1], [0, 0, 1, 0]], // 0, 1, 3, 4
    [[1, 0, 0, 0], [1, 1, 1, 1], [0, 1, 0, 0], [0, 0, 1, 0]], // 0, 2, 3, 4
    [[1, 1, 1, 1], [1, 0, 0, 0], [0, 1, 0, 0], [0, 0, 1, 0]], // 1, 2, 3, 4
    [
        [1, 0, 0, 0],
        [0, 1, 0, 0],
        [0, 0, 1, 0],
        [173, 71, 142, 173],
    ], // 0, 1, 2, 5
    [[1, 0, 0, 0], [0, 1, 0, 0], [71, 142, 2, 71], [0, 0, 1, 0]], // 0, 1, 3, 5
    [[1, 0, 0, 0], [142, 2, 4, 142], [0, 1, 0, 0], [0, 0, 1, 0]], // 0, 2, 3, 5
    [[2, 4, 8, 1], [1, 0, 0, 0], [0, 1, 0, 0], [0, 0, 1, 0]], // 1, 2, 3, 5
    [
        [1, 0, 0, 0],
        [0, 1, 0, 0],
        [200, 143, 245, 61],
        [201, 142, 244, 61],
    ], // 0, 1, 4, 5
    [
        [1, 0, 0, 0],
        [123, 245, 166, 221],
        [0, 1, 0, 0],
        [122, 244, 167, 221],
    ], // 0, 2, 4, 5
    [
        [187, 210, 156, 157],
        [1, 0, 0, 0],
        [0, 1, 0, 0],
        [186, 211, 157, 157],
    ], // 1, 2, 4, 5
    [
        [1, 0, 0, 0],
        [143, 2, 245, 122],
        [142, 3, 244, 122],
        [0, 1, 0, 0],
    ], // 0, 3, 4, 5
    [
        [245, 247, 166, 167],
        [1, 0, 0, 0],
        [244, 246, 167, 167],
        [0, 1, 0, 0],
    ], // 1, 3, 4, 5
    [
        [2, 6, 245, 244],
        [3, 7, 244, 244],
        [1, 0, 0, 0],
        [0, 1, 0, 0],
    ], // 2, 3, 4, 5
];

// Four rising numbers that the code has.
#[derive(Clone, Copy)]
struct Choice {
    numbers: [u8; 4],
    ghost rising: { IsTrue (rising numbers) },
}

impl Choice {
    // The choice of these numbers, if they are one.
    fn of(numbers: [u8; 4]) -> Option<Choice>
        ensures { option_map (λ c. c.numbers) result ≡ (if rising numbers then Some numbers else None) }
    {
        let [a, b, c, d] = numbers;
        if a < b && b < c && c < d && d < 6 {
            Some(Choice { numbers })
        } else {
            None
        }
    }

    // Where the choice stands among all.
    fn rank(self) -> usize
        ensures value { result ≡ rank_of self.numbers }
        ensures bound { result < 15 }
    {
        let [a, b, c, d] = self.numbers;
        usize::from(a)
            + PAIRS[usize::from(b)]
            + TRIPLES[usize::from(c)]
            + QUADRUPLES[usize::from(d)]
    }

    // The inverse of the factors of its pieces.
    fn solution(self) -> Matrix
        ensures { result ≡ slice_index_or solutions (rank_of self.numbers) [] }
    {
        SOLUTIONS[self.rank()]
    }
}

/// The factors of the double parity.
pub struct DoubleParity;

impl Factors for DoubleParity {
    const N: usize = 6;

    const F: usize = 1;

    ghost matrix = { double_parity };

    ghost N = { 6 };

    ghost F = { 1 };

    ghost solves = { unfold twice times inverse inverted solvable in tt };

    ghost n_is = { refl };

    fn factors(number: u8) -> [u8; 4] {
        FACTORS.get(usize::from(number)).copied().unwrap_or([0; 4])
    }

    fn solution(numbers: [u8; 4]) -> Matrix {
        Choice::of(numbers).map_or([[0; 4]; 4], Choice::solution)
    }
}

/// Four rows of six bytes and two parities, of which one node may be silent.
pub type P6 = RowCode<DoubleParity>;
