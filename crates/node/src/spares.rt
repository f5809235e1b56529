//! The spare of a node: room for one whole record or one piece, under a stamp.
ghost use Rattle.std.specs.Prelude.{◌≡◌, ◌<◌};
ghost use Rattle.std.specs.Option.{option_map};
ghost use Rattle.register.specs.Nodes.{cut, replace, spare_bytes};
ghost use Rattle.register.specs.Reading.{spare_piece, spare_record};
ghost use Rattle.node.specs.Stamped.{stamp as stamp_of};
ghost use Rattle.node.specs.Spared.{spare as spare_of, stamp_in};

use crate::piece_of::PieceOf;
use crate::stamps::{Stamp, Stamped};
use code::Code;

/// A free place, or one piece in the first w bytes, or one whole record.
#[derive(Clone, Copy)]
pub enum Spare {
    Free,
    Piece(Stamped),
    Whole(Stamped),
}

impl Spare {
    // What a floor leaves of it: a lower stamp frees it, and a whole record under the floor itself is cut to its piece i.
    #[tactic(auto, unfolding(register::specs::Nodes::cut))]
    pub(crate) fn cut<C: Code>(&mut self, i: u8, floor: Stamp)
        ensures { i < C.Code.meaning.n → spare_of C.Code.meaning self.new ≡ cut C.Code.meaning i (stamp_of floor) (spare_of C.Code.meaning self.old) }
    {
        match *self {
            Spare::Piece(held) | Spare::Whole(held) if held.stamp.is_below(floor) => {
                *self = Spare::Free;
            }
            Spare::Whole(held) if held.stamp.is(floor) => {
                *self = Spare::Piece(Stamped {
                    stamp: held.stamp,
                    bytes: C::encode(held.bytes, i),
                });
            }
            _ => {}
        }
    }

    // The stamp of what it holds.
    pub(crate) fn stamp(&self) -> Option<Stamp>
        ensures { result ≡ stamp_in self.now }
    {
        match self {
            Spare::Free => None,
            Spare::Piece(held) | Spare::Whole(held) => Some(held.stamp),
        }
    }

    // The whole record goes in if the spare is free or under a lower stamp.
    #[tactic(auto, unfolding(register::specs::Nodes::replace))]
    pub(crate) fn replace<C: Code>(&mut self, whole: Stamped)
        ensures { spare_of C.Code.meaning self.new ≡ replace (stamp_of whole.stamp) whole.bytes (spare_of C.Code.meaning self.old) }
    {
        if self.stamp().is_none_or(|s| s.is_below(whole.stamp)) {
            *self = Spare::Whole(whole);
        }
    }

    // The bytes that it holds.
    pub(crate) fn held<C: Code>(&self) -> usize
        ensures { result ≡ spare_bytes C.Code.meaning.w (spare_of C.Code.meaning self.now) }
    {
        match self {
            Spare::Free => 0,
            Spare::Piece(_) => C::width(),
            Spare::Whole(_) => 24,
        }
    }

    // The piece under the stamp.
    #[tactic(auto, unfolding(register::specs::Reading::spare_piece))]
    pub(crate) fn piece_under<C: Code>(&self, stamp: Stamp) -> Option<PieceOf<'_, C>>
        ensures { option_map (λ x. x.bytes.now) result ≡ spare_piece (stamp_of stamp) (spare_of C.Code.meaning self.now) }
    {
        match self {
            Spare::Piece(held) if held.stamp.is(stamp) => Some(PieceOf::at(&held.bytes, 0)),
            _ => None,
        }
    }

    // The whole record under the stamp.
    #[tactic(auto, unfolding(register::specs::Reading::spare_record))]
    pub(crate) fn record_under<C: Code>(&self, stamp: Stamp) -> Option<&[u8]>
        ensures { option_map (λ x. x.now) result ≡ spare_record (stamp_of stamp) (spare_of C.Code.meaning self.now) }
    {
        match self {
            Spare::Whole(held) if held.stamp.is(stamp) => Some(&held.bytes),
            _ => None,
        }
    }
}
