//! Nodes: what one holds, what it does with a Store and a Settle, and what it shows at a Look.
ghost use Rattle.std.specs.Prelude.{◌≡◌, ◌<◌, [], ◌∷◌, length, slice_index_or};
ghost use Rattle.std.specs.Option.{option_map};
ghost use Rattle.code.specs.Meaning.{Meaning};
ghost use Rattle.register.specs.Stamps.{below, lowest};
ghost use Rattle.register.specs.Nodes.{free, raise, put as placed, store, held_bytes};
ghost use Rattle.register.specs.Machine.{no_node};
ghost use Rattle.register.specs.Reading.{node_piece, spare_record, node_stamps, list_count};
ghost use Rattle.node.specs.Stamped.{stamp as stamp_of};
ghost use Rattle.node.specs.Views.{node as node_of};

use crate::piece_of::PieceOf;
use crate::shelves::Shelf;
use crate::spares::Spare;
use crate::stamps::{Stamp, Stamped};
use code::Code;

/// A node: its floor, its shelf of pieces and its spare.
/// Node i only ever holds pieces with number i; the functions that make a piece are told i.
#[derive(Clone, Copy)]
pub struct Node {
    floor: Stamp,
    shelf: Shelf,
    spare: Spare,
}

impl Node {
    /// A node that holds nothing, with the lowest floor.
    pub fn empty() -> Node
        ensures { (m : Meaning) → node_of m result ≡ no_node }
    {
        Node {
            floor: Stamp::lowest(),
            shelf: Shelf::empty(),
            spare: Spare::Free,
        }
    }

    /// Node i as it is laid out: a record's piece i on the shelf, under the floor's stamp.
    pub fn laid<C: Code>(i: u8, whole: Stamped) -> Node
        ensures { i < C.Code.meaning.n → node_of C.Code.meaning result ≡ record { floor = stamp_of whole.stamp; shelf = record { stamp = stamp_of whole.stamp; bytes = C.Code.meaning.piece whole.bytes i } ∷ []; spare = free } }
    {
        let mut shelf = Shelf::empty();
        shelf.shelve::<C>(i, whole);
        Node {
            floor: whole.stamp,
            shelf,
            spare: Spare::Free,
        }
    }

    // Whether the floor is below a stamp.
    fn is_under(&self, stamp: Stamp) -> bool
        ensures { result ≡ below (stamp_of self.now.floor) (stamp_of stamp) }
    {
        self.floor.is_below(stamp)
    }

    /// Raises the floor of node i: what stands under a lower stamp is dropped, and a whole record under the floor itself
    /// is cut to its piece. Nothing changes where the floor is there already, or above.
    #[tactic(auto, unfolding(register::specs::Nodes::raise))]
    pub fn raise<C: Code>(&mut self, i: u8, floor: Stamp)
        ensures { i < C.Code.meaning.n → node_of C.Code.meaning self.new ≡ raise C.Code.meaning i (stamp_of floor) (node_of C.Code.meaning self.old) }
    {
        if self.is_under(floor) {
            self.floor = floor;
            self.shelf = self.shelf.cleared::<C>(floor);
            self.spare.cut::<C>(i, floor);
        }
    }

    // A record's piece i goes to the shelf, or where that is full the whole record to the spare.
    #[tactic(auto, unfolding(register::specs::Nodes::put), using(crate::proofs::Held::counts))]
    fn put<C: Code>(&mut self, i: u8, whole: Stamped)
        ensures { i < C.Code.meaning.n → node_of C.Code.meaning self.new ≡ placed C.Code.meaning i (stamp_of whole.stamp) whole.bytes (node_of C.Code.meaning self.old) }
    {
        if self.shelf.has_room::<C>() {
            self.shelf.shelve::<C>(i, whole);
        } else {
            self.spare.replace::<C>(whole);
        }
    }

    /// Stores a record at node i under a stamp above the floor, after raising the floor to the one that came with it.
    #[tactic(auto, unfolding(register::specs::Nodes::store))]
    pub fn store<C: Code>(&mut self, i: u8, whole: Stamped, floor: Stamp)
        ensures { i < C.Code.meaning.n → node_of C.Code.meaning self.new ≡ store C.Code.meaning i (stamp_of whole.stamp) (stamp_of floor) whole.bytes (node_of C.Code.meaning self.old) }
    {
        if self.is_under(whole.stamp) {
            self.raise::<C>(i, floor);
            self.put::<C>(i, whole);
        }
    }

    /// Settles a stamp at node i: the floor is raised to it.
    pub fn settle<C: Code>(&mut self, i: u8, stamp: Stamp)
        ensures { i < C.Code.meaning.n → node_of C.Code.meaning self.new ≡ raise C.Code.meaning i (stamp_of stamp) (node_of C.Code.meaning self.old) }
    {
        self.raise::<C>(i, stamp);
    }

    /// A copy of all that the node holds.
    pub fn look(&self) -> Node
        ensures { result ≡ self.now }
    {
        *self
    }

    /// How many bytes of records the node holds.
    #[tactic(auto, using(crate::proofs::Held::bytes))]
    pub fn held<C: Code>(&self) -> usize
        ensures { result ≡ held_bytes C.Code.meaning.w (node_of C.Code.meaning self.now) }
    {
        self.shelf.used::<C>() * C::width() + self.spare.held::<C>()
    }

    /// The floor.
    pub fn floor(&self) -> Stamp
        ensures { result ≡ self.now.floor }
    {
        self.floor
    }

    /// How many pieces and records the node holds, each under its stamp.
    #[tactic(auto, using(crate::proofs::Held::length_stamps))]
    pub fn items<C: Code>(&self) -> usize
        ensures { result ≡ length (node_stamps (node_of C.Code.meaning self.now)) }
    {
        self.shelf.used::<C>() + usize::from(self.spare.stamp().is_some())
    }

    /// The stamp of item j, the spare's coming last; the lowest stamp where there is no such item.
    #[tactic(auto, using(crate::proofs::Held::items))]
    pub fn stamp_at<C: Code>(&self, j: usize) -> Stamp
        ensures { stamp_of result ≡ slice_index_or (node_stamps (node_of C.Code.meaning self.now)) j lowest }
    {
        let used = self.shelf.used::<C>();
        if j < used {
            self.shelf.tags::<C>()[j]
        } else if j == used {
            self.spare.stamp().unwrap_or_default()
        } else {
            Stamp::lowest()
        }
    }

    /// The highest count in any stamp of the node, the floor's included.
    #[tactic(auto, using(crate::proofs::Held::top_stamp))]
    pub fn top_count<C: Code>(&self) -> u32
        ensures { result ≡ list_count (node_of C.Code.meaning self.now).floor.count (node_stamps (node_of C.Code.meaning self.now)) }
    {
        // The spare's after the fold: a `chain` would ask at each stamp which of the two it is in.
        let shelf = self.shelf.tags::<C>().iter();
        let top = shelf.fold(self.floor.count, |top, s| top.max(s.count));
        top.max(self.spare.stamp().unwrap_or_default().count)
    }

    /// The piece under a stamp.
    #[tactic(auto, unfolding(register::specs::Reading::node_piece))]
    pub fn piece_under<C: Code>(&self, stamp: Stamp) -> Option<PieceOf<'_, C>>
        ensures { option_map (λ x. x.bytes.now) result ≡ node_piece (stamp_of stamp) (node_of C.Code.meaning self.now) }
    {
        self.shelf
            .piece_under::<C>(stamp)
            .or_else(|| self.spare.piece_under::<C>(stamp))
    }

    /// The whole record under a stamp.
    pub fn record_under<C: Code>(&self, stamp: Stamp) -> Option<&[u8]>
        ensures { option_map (λ x. x.now) result ≡ spare_record (stamp_of stamp) (node_of C.Code.meaning self.now).spare }
    {
        self.spare.record_under::<C>(stamp)
    }
}
