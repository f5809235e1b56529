//! Pieces of a code, one after the other in a block of bytes, each with a tag.
ghost use Rattle.std.specs.Prelude.{◌≡◌, ◌+◌, ◌*◌, ◌<◌, ◌≤◌, min, [], ◌∷◌, ◌++◌, map, length, nat_lt};
ghost use Rattle.code.specs.Meaning.{Meaning};
ghost use Rattle.node.specs.Tagged.{pieces as pieces_of};

use crate::piece_of::PieceOf;
use code::Code;

/// At most k pieces of w bytes for a code's k and w, each with a tag: the stamp that it stands under, or its node's number.
/// The 24 bytes are cut into k places of w bytes; the first `count` places are in use.
/// An `ArrayVec` would count by itself, but it is not `Copy`, and a Look copies a whole node.
#[derive(Clone, Copy)]
pub struct Pieces<T, const MAX: usize> {
    count: u8,
    pub(crate) tags: [T; MAX],
    pub(crate) bytes: [u8; 24],
}

impl<T: Copy + Default, const MAX: usize> Pieces<T, MAX> {
    // No pieces.
    pub(crate) fn empty() -> Pieces<T, MAX>
        ensures counted { result.count ≡ 0 }
        ensures listed { (d : T) (m : Meaning) → pieces_of d m result ≡ [] }
    {
        Pieces {
            count: 0,
            tags: [T::default(); MAX],
            bytes: [0; 24],
        }
    }

    // Whether there is room for one more.
    pub(crate) fn has_room<C: Code>(&self) -> bool
        ensures { result ≡ nat_lt self.now.count C.Code.meaning.k }
    {
        usize::from(self.count) < C::K
    }

    // How many there are.
    pub(crate) fn used<C: Code>(&self) -> usize
        ensures { result ≡ min self.now.count C.Code.meaning.k }
    {
        C::K.min(usize::from(self.count))
    }

    // The tags, in the order of the pieces.
    pub(crate) fn tags<C: Code>(&self) -> &[T]
        requires { C.Code.meaning.k ≤ MAX }
        ensures used { length result.now ≡ min self.now.count C.Code.meaning.k }
        ensures listed { (d : T) → result.now ≡ map (λ x. x.tag) (pieces_of d C.Code.meaning self.now) }
    {
        &self.tags[..self.used::<C>()]
    }

    // One more piece, behind the others.
    pub(crate) fn push<C: Code>(&mut self, tag: T, piece: PieceOf<'_, C>)
        requires places { C.Code.meaning.k ≤ MAX }
        requires room { self.old.count < C.Code.meaning.k }
        ensures counted { self.new.count ≡ self.old.count + 1 }
        ensures longer { (d : T) → pieces_of d C.Code.meaning self.new ≡ pieces_of d C.Code.meaning self.old ++ (record { tag = tag; bytes = piece.entry.bytes.now } ∷ []) }
    {
        let j = usize::from(self.count);
        let w = C::width();
        self.tags[j] = tag;
        self.bytes[j * w..j * w + w].copy_from_slice(piece.bytes);
        self.count += 1;
    }
}
