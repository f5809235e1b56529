//! Pieces picked from nodes, to be joined.
ghost use Rattle.std.specs.Prelude.{◌≡◌, ◌<◌, [], ◌++◌, length, take};
ghost use Rattle.code.specs.Meaning.{Chosen};
ghost use Rattle.register.specs.Reading.{node_piece, with_piece, numbers as numbers_of, joined};
ghost use Rattle.node.specs.Stamped.{stamp as stamp_of};
ghost use Rattle.node.specs.Views.{node as node_of};
ghost use Rattle.node.specs.Picked.{parts as parts_of};

use crate::nodes::Node;
use crate::pieces::Pieces;
use crate::stamps::Stamp;
use code::Code;

/// At most k pieces with the numbers of their nodes, in the order in which they were picked.
pub type Parts = Pieces<u8, 8>;

impl Parts {
    /// No pieces.
    pub fn none<C: Code>() -> Parts
        ensures { parts_of C.Code.meaning result ≡ [] }
    {
        Parts::empty()
    }

    /// How many there are.
    #[tactic(auto, using(crate::proofs::Picks::length_parts))]
    pub fn len<C: Code>(&self) -> usize
        ensures { result ≡ length (parts_of C.Code.meaning self.now) }
    {
        self.used::<C>()
    }

    /// One more piece, of node i, if it has one under the stamp and k are not there yet.
    #[tactic(auto, using(crate::proofs::Picks::added))]
    pub fn add<C: Code>(&mut self, i: u8, node: &Node, stamp: Stamp)
        ensures { parts_of C.Code.meaning self.new ≡ take C.Code.meaning.k (parts_of C.Code.meaning self.old ++ with_piece i (node_piece (stamp_of stamp) (node_of C.Code.meaning node.now)) []) }
    {
        if self.has_room::<C>()
            && let Some(piece) = node.piece_under::<C>(stamp)
        {
            self.push::<C>(i, piece);
        }
    }

    /// The bytes that have these pieces, where they are k with rising numbers of nodes.
    #[tactic(auto, using(crate::proofs::Picks::joined_here))]
    pub fn joined<C: Code>(&self) -> [u8; 24]
        ensures { Chosen C.Code.meaning.k C.Code.meaning.n (numbers_of (parts_of C.Code.meaning self.now)) → result ≡ joined C.Code.meaning (parts_of C.Code.meaning self.now) }
    {
        C::decode(self.tags, self.bytes)
    }
}
