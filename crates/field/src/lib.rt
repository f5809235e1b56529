//! Arithmetic in the field of 256 elements that the double parity of RAID 6 is computed in.
#![tactic(auto)]

ghost use Rattle.std.specs.Prelude.{◌≡◌, ℕ, ◌-◌, ◌*◌, ◌/◌, ◌^◌, ◌<◌, ◌≤◌, bit_and, bit_xor, fold, slice_index};
ghost use Rattle.field.specs.Polynomials.{coefficient, twice, times, dot, line, square, inverse, byte};
ghost use Rattle.field.specs.Laws.{FieldLaws};

pub mod matrix;

pub use matrix::{Matrix, inverted};
use std::array;

// What x^8 is, modulo x^8 + x^4 + x^3 + x^2 + 1.
const REDUCED: u64 = 29;

// What doubling each byte of a word adds for the x^8 that they give.
fn overflow_each(word: u64) -> u64
    ensures { result ≡ bit_and (word / 128) 0x0101_0101_0101_0101 * 29 }
{
    ((word >> 7) & 0x0101_0101_0101_0101) * REDUCED
}

/// x times each byte of a word.
#[tactic(auto, using(crate::proofs::Lanes::doubled))]
pub fn double_each(word: u64) -> u64
    ensures { (b : ℕ) → b < 8 → byte result b ≡ twice (byte word b) }
{
    ((word & 0x7f7f_7f7f_7f7f_7f7f) << 1) ^ overflow_each(word)
}

/// x times a byte.
pub fn double(a: u8) -> u8
    ensures { result ≡ twice a }
{
    double_each(u64::from(a)).to_le_bytes()[0]
}

// A coefficient of a polynomial.
#[derive(Clone, Copy)]
struct Bit {
    value: u8,
    ghost small: { value ≤ 1 },
}

impl Bit {
    // The coefficient of x^i.
    fn of(a: u8, i: u32) -> Bit
        requires { i < 8 }
        ensures { result.value ≡ coefficient a i }
    {
        Bit {
            value: (a >> i) % 2,
        }
    }

    // A byte, or 0.
    fn times(self, b: u8) -> u8
        ensures { result ≡ self.value * b }
    {
        self.value * b
    }

    // A word, or 0, by a mask and not by a branch.
    #[tactic(auto, using(crate::proofs::Bits::masked))]
    fn masked(self, word: u64) -> u64
        ensures { result ≡ self.value * word }
    {
        u64::from(self.value).wrapping_neg() & word
    }
}

// The product so far and a bit more of its first factor: (x p + u) b = x (p b) + u b.
fn extended(sum: u8, u: Bit, b: u8) -> u8
    ensures { result ≡ bit_xor (twice sum) (u.value * b) }
{
    double(sum) ^ u.times(b)
}

/// The product of two bytes.
#[tactic(auto, using(crate::proofs::Proved::horner, crate::proofs::Proved::horner_ends, crate::proofs::Proved::field_laws))]
pub fn product(a: u8, b: u8) -> u8
    ensures value { result ≡ times a b }
    ensures field { FieldLaws }
{
    let mut sum = 0;
    for i in (0..8).rev() {
        sum = extended(sum, Bit::of(a, i), b);
    }
    sum
}

// A byte times itself.
fn square(a: u8) -> u8
    ensures { result ≡ square a }
{
    product(a, a)
}

/// The byte that makes 1 of a, and 0 for 0: a to the power 254 = 2 + 4 + .. + 128.
#[tactic(auto, unfolding(crate::specs::Polynomials::inverse))]
pub fn inverse(a: u8) -> u8
    ensures { result ≡ inverse a }
{
    // A fold would carry both and give back one of them.
    let mut power = 1;
    let mut root = a;
    for _ in 0..7u8 {
        root = square(root);
        power = product(power, root);
    }
    power
}

// The words whose factor has the coefficient of x^i, and 0 for the others.
fn taken(factors: [u8; 4], i: u32, words: [u64; 4]) -> [u64; 4]
    requires { i < 8 }
    ensures { result ≡ line (λ j. coefficient (slice_index factors j) i * slice_index words j) }
{
    array::from_fn(|j| Bit::of(factors[j], i).masked(words[j]))
}

// The sum of four words.
fn added(words: [u64; 4]) -> u64
    ensures { result ≡ fold bit_xor 0 words }
{
    words.iter().fold(0, |sum, word| sum ^ word)
}

// How many of the eight coefficients, from the lowest on, some factor may have.
#[tactic(auto, using(crate::proofs::Bits::under))]
fn used(factors: [u8; 4]) -> u32
    ensures most { result ≤ 8 }
    ensures none { (j : ℕ) → j < 4 → slice_index factors j < 2 ^ result }
{
    8 - factors
        .iter()
        .fold(0u8, |all, factor| all | factor)
        .leading_zeros()
}

/// The sum of four words, where each byte of a word is multiplied by the word's factor.
#[tactic(auto, using(crate::proofs::Lanes::high_starts, crate::proofs::Lanes::high_more, crate::proofs::Lanes::high_ends))]
pub fn combined(factors: [u8; 4], words: [u64; 4]) -> u64
    ensures { (b : ℕ) → b < 8 → byte result b ≡ dot (λ j. slice_index factors j) (λ j. byte (slice_index words j) b) }
{
    let mut total = 0;
    for i in (0..used(factors)).rev() {
        total = double_each(total) ^ added(taken(factors, i, words));
    }
    total
}
