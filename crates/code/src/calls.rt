//! What the calls of every code share: their refusals, and the pieces that a caller hands over.
ghost use Rattle.std.specs.Prelude.{◌≡◌, Some, ◌*◌, ◌≤◌, true, length, take, ◌==◌, nat_lt};
ghost use Rattle.code.specs.Meaning.{all_below, rising, AllBytes};
ghost use Rattle.code.specs.Calls.{refusal, sentence, number_of, bytes_of, numbers_of, contents_of, all_long, fitting, cut};

use std::error::Error;
use std::{array, fmt};

/// Why a call is refused.
#[derive(Clone, Copy, PartialEq, Eq, Debug)]
pub enum CodeError {
    /// a piece number that the code does not have
    Number = 20,
    /// a record, a piece or a place of another size, or another count of pieces
    Size = 21,
    /// piece numbers that do not rise
    Order = 22,
}

impl CodeError {
    /// The number by which the refusal is told.
    pub fn number(self) -> u8
        ensures { result ≡ refusal self }
    {
        self as u8
    }
}

/// What was refused, in a few words.
impl fmt::Display for CodeError {
    ghost output = { λ e. Some (sentence e) };

    fn fmt<W: fmt::Write>(&self, f: &mut fmt::Formatter<W>) -> fmt::Result {
        f.write_str(match self {
            CodeError::Number => "no such piece number",
            CodeError::Size => "a wrong size or count",
            CodeError::Order => "the piece numbers do not rise",
        })
    }
}

impl Error for CodeError {}

/// A piece as a caller holds it.
#[derive(Clone, Copy)]
pub struct Piece<'a> {
    pub number: u8,
    pub bytes: &'a [u8],
}

impl Piece<'_> {
    // Whether the piece has w bytes.
    fn is_long(&self, w: usize) -> bool
        ensures { result ≡ (length (bytes_of self.now) == w) }
    {
        self.bytes.len() == w
    }

    // Whether the piece's number is above that of the piece before it.
    fn is_above(&self, before: &Piece<'_>) -> bool
        ensures { result ≡ nat_lt (number_of before.now) (number_of self.now) }
    {
        before.number < self.number
    }
}

// Whether each piece has a number below n.
pub(crate) fn known(pieces: &[Piece<'_>], n: usize) -> bool
    ensures { result ≡ all_below n (numbers_of pieces.now) }
{
    pieces
        .iter()
        .map(|piece| piece.number)
        .all(|number| usize::from(number) < n)
}

// Whether each piece has w bytes.
fn sized(pieces: &[Piece<'_>], w: usize) -> bool
    ensures { result ≡ all_long w (contents_of pieces.now) }
{
    pieces.iter().all(|piece| piece.is_long(w))
}

// Whether there is room for a record, and k pieces of w bytes.
pub(crate) fn fits(room: usize, k: usize, w: usize, pieces: &[Piece<'_>]) -> bool
    ensures { result ≡ fitting room k w (contents_of pieces.now) }
{
    room == 24 && pieces.len() == k && sized(pieces, w)
}

// Whether the numbers of the pieces rise.
pub(crate) fn in_order(pieces: &[Piece<'_>]) -> bool
    ensures { result ≡ rising (numbers_of pieces.now) }
{
    pieces.is_sorted_by(|before, piece| piece.is_above(before))
}

// The numbers of at most eight pieces, and zeros after them.
pub(crate) fn gather_numbers(pieces: &[Piece<'_>]) -> [u8; 8]
    requires { length pieces.now ≤ 8 }
    ensures { take (length pieces.now) result ≡ numbers_of pieces.now }
{
    array::from_fn(|i| pieces.get(i).map_or(0, |piece| piece.number))
}

// Writes the bytes of the pieces, one piece after the other.
pub(crate) fn gather_bytes(pieces: &[Piece<'_>], w: usize, all: &mut [u8])
    requires count { length pieces.now * w ≡ length all.old }
    requires sizes { all_long w (contents_of pieces.now) ≡ true }
    ensures parts { cut (length pieces.now) w all.new ≡ contents_of pieces.now }
    ensures bytes { AllBytes w (contents_of pieces.now) }
{
    // Not by `chunks_exact_mut`: once its borrow is over, a proof knows the length and no element.
    for (i, piece) in pieces.iter().enumerate() {
        all[i * w..i * w + w].copy_from_slice(piece.bytes);
    }
}
