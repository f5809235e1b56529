//! What the answers of a round rebuild: the record under the highest readable stamp.
ghost use Rattle.std.specs.Prelude.{◌≡◌, ◌<◌, [], ◌∷◌, ◌++◌, take, if◌then◌else◌};
ghost use Rattle.std.specs.Option.{option_map};
ghost use Rattle.record.specs.Layout.{layout};
ghost use Rattle.register.specs.Reading.{only_if, with_piece, node_piece, pieces, spare_record, whole, node_stamps, record_under, later, highest, rebuild};
ghost use Rattle.node.specs.Stamped.{stamp as stamp_of};
ghost use Rattle.node.specs.Picked.{parts as parts_of};
ghost use Rattle.reads.specs.Views.{got, answer};
ghost use Rattle.reads.specs.Finds.{found as found_of, is_later};

use crate::rounds::Answers;
use code::Code;
use node::{Parts, Stamp};
use record::Record;
use record::layout::lying_in;

/// A record under its stamp.
#[derive(Clone, Copy)]
pub struct Found {
    pub stamp: Stamp,
    pub content: Record,
}

// Whether a stamp is later than what was found, if anything was.
fn is_later(stamp: Stamp, found: &Option<Found>) -> bool
    ensures { result ≡ is_later (stamp_of stamp) (found_of found.now) }
{
    found.is_none_or(|best| best.stamp.is_below(stamp))
}

impl Answers {
    // Adds the piece of node i under the stamp, if the node was fetched.
    #[tactic(auto, using(crate::proofs::Under::none_added))]
    fn gather_at<C: Code>(&self, parts: &mut Parts, i: usize, stamp: Stamp)
        requires { i < 8 }
        ensures { parts_of C.Code.meaning parts.new ≡ take C.Code.meaning.k (parts_of C.Code.meaning parts.old ++ with_piece i (only_if (got self.now i) (node_piece (stamp_of stamp) (answer C.Code.meaning self.now i))) []) }
    {
        if let Some(node) = self.at(i) {
            parts.add::<C>(i as u8, node, stamp);
        }
    }

    // The pieces under the stamp, at most k, by rising numbers of nodes.
    fn gather<C: Code>(&self, stamp: Stamp) -> Parts
        ensures { parts_of C.Code.meaning result ≡ take C.Code.meaning.k (pieces (got self.now) (answer C.Code.meaning self.now) (stamp_of stamp) 0 C.Code.meaning.n) }
    {
        let mut parts = Parts::none::<C>();
        for i in 0..C::N {
            self.gather_at::<C>(&mut parts, i, stamp);
        }
        parts
    }

    // The whole record of node i under the stamp, if the node was fetched.
    fn whole_at<C: Code>(&self, i: usize, stamp: Stamp) -> Option<&[u8]>
        requires { i < 8 }
        ensures { option_map (λ x. x.now) result ≡ only_if (got self.now i) (spare_record (stamp_of stamp) (answer C.Code.meaning self.now i).spare) }
    {
        self.at(i)?.record_under::<C>(stamp)
    }

    // The first whole record under the stamp.
    fn whole_under<C: Code>(&self, stamp: Stamp) -> Option<&[u8]>
        ensures { option_map (λ x. x.now) result ≡ whole (got self.now) (answer C.Code.meaning self.now) (stamp_of stamp) 0 C.Code.meaning.n }
    {
        for i in 0..C::N {
            if let Some(bytes) = self.whole_at::<C>(i, stamp) {
                return Some(bytes);
            }
        }
        None
    }

    // The record under the stamp: a whole one, or what k pieces join to.
    fn record_under<C: Code>(&self, stamp: Stamp) -> Option<Record>
        ensures { option_map layout result ≡ record_under C.Code.meaning (got self.now) (answer C.Code.meaning self.now) (stamp_of stamp) }
    {
        if let Some(bytes) = self.whole_under::<C>(stamp) {
            return lying_in(bytes);
        }
        let parts = self.gather::<C>(stamp);
        if parts.len::<C>() < C::K {
            return None;
        }
        let joined = parts.joined::<C>();
        lying_in(&joined)
    }

    // The later of what was found and what the answers hold under one more stamp. A stamp below the floor is not readable,
    // and one that is not later need not be read.
    #[tactic(auto, using(crate::proofs::Latest::offers))]
    fn offer<C: Code>(&self, found: Option<Found>, stamp: Stamp, floor: Stamp) -> Option<Found>
        ensures { found_of result ≡ later (found_of found) (highest C.Code.meaning (got self.now) (answer C.Code.meaning self.now) (stamp_of floor) (stamp_of stamp ∷ [])) }
    {
        if stamp.is_below(floor) || !is_later(stamp, &found) {
            return found;
        }
        let content = self.record_under::<C>(stamp);
        content.map(|content| Found { stamp, content }).or(found)
    }

    // The same for each stamp of node i, if the node was fetched.
    fn offer_node<C: Code>(&self, found: Option<Found>, i: usize, floor: Stamp) -> Option<Found>
        requires { i < 8 }
        ensures { found_of result ≡ later (found_of found) (highest C.Code.meaning (got self.now) (answer C.Code.meaning self.now) (stamp_of floor) (if got self.now i then node_stamps (answer C.Code.meaning self.now i) else [])) }
    {
        let Some(node) = self.at(i) else {
            return found;
        };
        let mut best = found;
        for j in 0..node.items::<C>() {
            best = self.offer::<C>(best, node.stamp_at::<C>(j), floor);
        }
        best
    }

    /// The record under the highest readable stamp. A stamp below the highest floor is not readable.
    pub fn rebuild<C: Code>(&self) -> Option<Found>
        ensures { found_of result ≡ rebuild C.Code.meaning (got self.now) (answer C.Code.meaning self.now) }
    {
        let floor = self.top_floor::<C>();
        let mut best = None;
        for i in 0..C::N {
            best = self.offer_node::<C>(best, i, floor);
        }
        best
    }
}
