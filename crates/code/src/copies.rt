//! Copies: each node holds the whole record, so one piece is enough.
ghost use Rattle.std.specs.Prelude.{◌≡◌, refl, ℕ, ◌+◌, ◌*◌, ◌≤◌};
ghost use Rattle.code.specs.Copies.{copies};
ghost use Rattle.code.specs.Alike;

use crate::interface::Code;

/// How many of the copies are spare: one to three, since a code has at most eight nodes.
pub trait Spares {
    /// how many copies are spare
    const F: usize;

    ghost F: { ℕ };

    ghost some: { 1 ≤ F };

    ghost few: { F ≤ 3 };
}

/// A copy on each of 2 f + 1 nodes, where S says how many the f spare ones are: a record is its own piece, and any one piece
/// is the record.
pub struct Copies<S>(S);

impl<S: Spares> Code for Copies<S> {
    const K: usize = 1;

    const N: usize = 2 * S::F + 1;

    const F: usize = S::F;

    ghost meaning = { copies S.Spares.F };

    ghost K = { 1 };

    ghost N = { 2 * S.Spares.F + 1 };

    ghost F = { S.Spares.F };

    ghost lawful = { Alike.lawful S.Spares.F S.Spares.some S.Spares.few };

    ghost k_is = { refl };

    ghost n_is = { refl };

    ghost f_is = { refl };

    fn encode(whole: [u8; 24], _number: u8) -> [u8; 24] {
        whole
    }

    fn decode(_numbers: [u8; 8], parts: [u8; 24]) -> [u8; 24] {
        parts
    }
}

pub struct One;

impl Spares for One {
    const F: usize = 1;

    ghost F = { 1 };

    ghost some = { Alike.one_some };

    ghost few = { Alike.one_few };
}

pub struct Two;

impl Spares for Two {
    const F: usize = 2;

    ghost F = { 2 };

    ghost some = { Alike.two_some };

    ghost few = { Alike.two_few };
}

/// Three copies, one of them spare.
pub type C3 = Copies<One>;

/// Five copies, two of them spare.
pub type C5 = Copies<Two>;
