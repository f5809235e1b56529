//! Whitening over a code, for line drivers that need bits that change.
#![tactic(auto)]

ghost use Rattle.std.specs.Prelude.{◌≡◌, ℕ, ◌*◌, ◌<◌, ◌≤◌, take, bit_xor};
ghost use Rattle.code.specs.Calls.{cut};
ghost use Rattle.whiten.specs.Whitening.{mask, masked, all_masked, whitened};
ghost use Rattle.whiten.specs.WhiteningLemmas;

use code::Code;
use parity::P6;
use std::array;

// What byte b of a piece is combined with.
fn mask(number: u8, b: usize) -> u8
    requires { b < 24 }
    ensures { result ≡ mask number b }
{
    ((165 + 7 * usize::from(number) + b) % 256) as u8
}

// Byte b of a piece with its mask, or without it again.
fn mixed(value: u8, number: u8, b: usize) -> u8
    requires { b < 24 }
    ensures { result ≡ bit_xor value (mask number b) }
{
    value ^ mask(number, b)
}

// A piece with its masks, as far as it goes: what stands after it does not count.
// Not `all_masked` of one piece that fills the array, which takes more than twice the time over copies.
fn masked(number: u8, piece: [u8; 24]) -> [u8; 24]
    ensures { result ≡ masked 24 number piece }
{
    array::from_fn(|b| mixed(piece[b], number, b))
}

// Pieces of w bytes that lie one after the other, each with its masks.
fn all_masked(numbers: [u8; 8], w: usize, parts: [u8; 24]) -> [u8; 24]
    requires low { 3 ≤ w }
    requires high { w ≤ 24 }
    ensures { (k : ℕ) → k * w ≡ 24 → cut k w result ≡ all_masked k w (take k numbers) (cut k w parts) }
{
    array::from_fn(|t| mixed(parts[t], numbers[t / w], t % w))
}

/// A code whose pieces are whitened.
pub struct Whitened<C>(C);

impl<C: Code> Code for Whitened<C> {
    const K: usize = C::K;

    const N: usize = C::N;

    const F: usize = C::F;

    ghost meaning = { whitened C.Code.meaning };

    ghost K = { C.Code.K };

    ghost N = { C.Code.N };

    ghost F = { C.Code.F };

    ghost lawful = { WhiteningLemmas.lawful C.Code.meaning C.Code.lawful };

    ghost k_is = { C.Code.k_is };

    ghost n_is = { C.Code.n_is };

    ghost f_is = { C.Code.f_is };

    fn encode(whole: [u8; 24], number: u8) -> [u8; 24] {
        masked(number, C::encode(whole, number))
    }

    fn decode(numbers: [u8; 8], parts: [u8; 24]) -> [u8; 24] {
        C::decode(numbers, all_masked(numbers, C::width(), parts))
    }
}

/// The double parity of RAID 6, whitened.
pub type W6 = Whitened<P6>;
