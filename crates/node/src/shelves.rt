//! The shelf of a node: pieces under their stamps.
ghost use Rattle.std.specs.Prelude.{◌≡◌, ◌+◌, ◌<◌, ◌≤◌, [], ◌∷◌, ◌++◌, map, IfSome, position};
ghost use Rattle.std.specs.Option.{option_map};
ghost use Rattle.register.specs.Stamps.{same_stamp};
ghost use Rattle.register.specs.Nodes.{cleared};
ghost use Rattle.register.specs.Reading.{shelf_piece};
ghost use Rattle.node.specs.Stamped.{stamp as stamp_of};
ghost use Rattle.node.specs.Tagged.{pieces};
ghost use Rattle.node.specs.Shelved.{no_stamp, shelf as shelf_of};

use crate::piece_of::PieceOf;
use crate::pieces::Pieces;
use crate::stamps::{Stamp, Stamped};
use code::Code;

/// At most k pieces under their stamps, in the order in which they came.
pub type Shelf = Pieces<Stamp, 6>;

impl Shelf {
    // Piece i of a record, behind the others.
    pub(crate) fn shelve<C: Code>(&mut self, i: u8, whole: Stamped)
        requires { self.old.count < C.Code.meaning.k }
        ensures { i < C.Code.meaning.n → shelf_of C.Code.meaning self.new ≡ shelf_of C.Code.meaning self.old ++ (record { stamp = stamp_of whole.stamp; bytes = C.Code.meaning.piece whole.bytes i } ∷ []) }
    {
        let piece = C::encode(whole.bytes, i);
        self.push::<C>(whole.stamp, PieceOf::at(&piece, 0));
    }

    // Takes over a piece, unless its stamp is below the floor.
    #[tactic(auto, unfolding(register::specs::Nodes::cleared))]
    fn keep<C: Code>(&mut self, stamp: Stamp, piece: PieceOf<'_, C>, floor: Stamp)
        requires { self.old.count < C.Code.meaning.k }
        ensures counted { self.new.count ≤ self.old.count + 1 }
        ensures longer { shelf_of C.Code.meaning self.new ≡ shelf_of C.Code.meaning self.old ++ cleared (stamp_of floor) (record { stamp = stamp_of stamp; bytes = piece.entry.bytes.now } ∷ []) }
    {
        if !stamp.is_below(floor) {
            self.push::<C>(stamp, piece);
        }
    }

    // The pieces under the floor or above, in their order.
    #[tactic(auto, unfolding(register::specs::Nodes::cleared), using(crate::proofs::Held::cleared_next))]
    pub(crate) fn cleared<C: Code>(&self, floor: Stamp) -> Shelf
        ensures { shelf_of C.Code.meaning result ≡ cleared (stamp_of floor) (shelf_of C.Code.meaning self.now) }
    {
        // By places: a `chunks_exact(w)` beside the tags says less of each piece than `PieceOf` does.
        let mut rest = Shelf::empty();
        for (j, stamp) in self.tags::<C>().iter().enumerate() {
            rest.keep::<C>(*stamp, PieceOf::at(&self.bytes, j), floor);
        }
        rest
    }

    // The place of the first piece under the stamp.
    fn place_of<C: Code>(&self, stamp: Stamp) -> Option<usize>
        ensures used { IfSome result (λ j. j < C.Code.meaning.k) }
        ensures first { result ≡ position (λ s. same_stamp (stamp_of s) (stamp_of stamp)) (map (λ x. x.tag) (pieces no_stamp C.Code.meaning self.now)) }
    {
        self.tags::<C>().iter().position(|s| s.is(stamp))
    }

    // The first piece under the stamp.
    #[tactic(auto, using(crate::proofs::Held::placed))]
    pub(crate) fn piece_under<C: Code>(&self, stamp: Stamp) -> Option<PieceOf<'_, C>>
        ensures { option_map (λ x. x.bytes.now) result ≡ shelf_piece (stamp_of stamp) (shelf_of C.Code.meaning self.now) }
    {
        let j = self.place_of::<C>(stamp)?;
        Some(PieceOf::at(&self.bytes, j))
    }
}
