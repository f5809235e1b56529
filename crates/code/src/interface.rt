//! What a code is, and what its users call.
ghost use Rattle.std.specs.Prelude.{◌≡◌, ℕ, ◌/◌, ◌<◌, ◌≤◌, length, take, OnOk};
ghost use Rattle.code.specs.Meaning.{Meaning, Lawful, Chosen, Only, OneAndOnly, Rebuilds};
ghost use Rattle.code.specs.Calls.{refused, numbers_of, contents_of, cut, make_refusal, join_refusal, written};

use crate::calls::{CodeError, Piece, fits, gather_bytes, gather_numbers, in_order, known};

// How many bytes each of k equal pieces of a record has. A function of its own, so that an edit of it loses a fact here.
fn piece_size(k: usize) -> usize
    requires { 1 ≤ k }
    ensures { result ≡ 24 / k }
{
    24 / k
}

/// A code for records of 24 bytes.
/// An implementation gives the constants, the meaning with its proof, `encode` and `decode`; users call `make` and `join`.
pub trait Code {
    /// how many pieces give a record back
    const K: usize;
    /// how many nodes there are
    const N: usize;
    /// how many nodes may be silent
    const F: usize;

    ghost meaning: { Meaning };

    // The values of the constants.
    ghost K: { ℕ };

    ghost N: { ℕ };

    ghost F: { ℕ };

    /// How many bytes a piece has.
    fn width() -> usize
        ensures { result ≡ meaning.w }
    {
        piece_size(Self::K)
    }

    /// The piece of a record at a number that the code has. The first w bytes count.
    /// Whole arrays go in and out, so that a code over another one makes an array of fixed length.
    fn encode(whole: [u8; 24], number: u8) -> [u8; 24]
        ensures { number < meaning.n → take meaning.w result ≡ meaning.piece whole number };

    /// The record that has these pieces, which lie one after the other, at these numbers, of which the first k count.
    fn decode(numbers: [u8; 8], parts: [u8; 24]) -> [u8; 24]
        ensures { Chosen meaning.k meaning.n (take meaning.k numbers) → result ≡ meaning.join (take meaning.k numbers) (cut meaning.k meaning.w parts) };

    /// Writes one piece of a record. A refusal changes nothing.
    fn make(whole: &[u8], number: u8, place: &mut [u8]) -> Result<(), CodeError>
        ensures refuses { refused result ≡ make_refusal meaning number (length whole.now) (length place.old) }
        ensures writes { place.new ≡ written (make_refusal meaning number (length whole.now) (length place.old)) (meaning.piece whole.now number) place.old }
    {
        if usize::from(number) >= Self::N {
            return Err(CodeError::Number);
        }
        let whole: [u8; 24] = whole.try_into().map_err(|_| CodeError::Size)?;
        let w = Self::width();
        if place.len() != w {
            return Err(CodeError::Size);
        }
        let piece = Self::encode(whole, number);
        place.copy_from_slice(&piece[..w]);
        Ok(())
    }

    /// Writes the one and only record that has these pieces. A refusal changes nothing.
    fn join(pieces: &[Piece<'_>], place: &mut [u8]) -> Result<(), CodeError>
        ensures refuses { refused result ≡ join_refusal meaning (numbers_of pieces.now) (contents_of pieces.now) (length place.old) }
        ensures writes { place.new ≡ written (join_refusal meaning (numbers_of pieces.now) (contents_of pieces.now) (length place.old)) (meaning.join (numbers_of pieces.now) (contents_of pieces.now)) place.old }
        ensures only { OnOk result (Only meaning (numbers_of pieces.now) (contents_of pieces.now) place.new) }
    {
        if !known(pieces, Self::N) {
            return Err(CodeError::Number);
        }
        let w = Self::width();
        if !fits(place.len(), Self::K, w, pieces) {
            return Err(CodeError::Size);
        }
        if !in_order(pieces) {
            return Err(CodeError::Order);
        }
        let mut parts = [0; 24];
        gather_bytes(pieces, w, &mut parts);
        let whole = Self::decode(gather_numbers(pieces), parts);
        place.copy_from_slice(&whole);
        Ok(())
    }

    ghost lawful: { Lawful meaning };

    // The constants are what the meaning says.
    ghost k_is: { K ≡ meaning.k };

    ghost n_is: { N ≡ meaning.n };

    ghost f_is: { F ≡ meaning.f };
}

/// A theorem, with nothing to run: k pieces at any rising numbers come from one record only, and
/// joining them gives it back.
pub fn pieces_are_enough<C: Code>()
    ensures one { OneAndOnly C.Code.meaning }
    ensures back { Rebuilds C.Code.meaning }
{}
