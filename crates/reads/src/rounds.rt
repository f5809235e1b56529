//! The answers of a round: which nodes were fetched, and what they showed.
ghost use Rattle.std.specs.Prelude.{◌≡◌, ℕ, ◌<◌, ◌==◌, true, Some, None, length, if◌then◌else◌, slice_set};
ghost use Rattle.code.specs.Meaning.{Meaning};
ghost use Rattle.register.specs.Tables.{upd};
ghost use Rattle.register.specs.Stamps.{higher, lowest};
ghost use Rattle.register.specs.Reading.{top_floor, top_count, list_count, node_stamps};
ghost use Rattle.register.specs.Machine.{closes, nobody, no_answers};
ghost use Rattle.node.specs.Stamped.{stamp as stamp_of};
ghost use Rattle.node.specs.Views.{node as node_of};
ghost use Rattle.std.specs.Option.{option_map};
ghost use Rattle.reads.specs.Views.{bit_of, got, shown, answer};

use code::Code;
use node::{Node, Stamp};

/// What the nodes showed a client in its round.
/// The nodes fetched are the one bits of a byte. What stands for a node that was not fetched does not count.
#[derive(Clone, Copy)]
pub struct Answers {
    pub(crate) fetched: u8,
    pub(crate) nodes: [Node; 8],
}

// A byte with bit i set.
#[tactic(auto, using(crate::proofs::Masks::bit_set))]
fn with_bit(byte: u8, i: usize) -> u8
    requires { i < 8 }
    ensures { (j : ℕ) → bit_of result j ≡ (if i == j then true else bit_of byte j) }
{
    byte | 1 << i
}

impl Answers {
    /// No answers.
    pub fn none() -> Answers
        ensures { result.fetched ≡ 0 }
    {
        Answers {
            fetched: 0,
            nodes: [Node::empty(); 8],
        }
    }

    /// Whether node i was fetched.
    #[tactic(auto, using(crate::proofs::Masks::bits))]
    pub fn has(&self, i: usize) -> bool
        ensures { result ≡ got self.now i }
    {
        let byte = self.fetched;
        i < 8 && (byte >> i) & 1 == 1
    }

    /// A round starts: no node is fetched.
    pub fn clear(&mut self)
        ensures fetched { got self.new ≡ nobody }
        ensures answers { (m : Meaning) → answer m self.new ≡ no_answers }
    {
        self.fetched = 0;
    }

    /// Node i shows what it holds.
    pub fn show(&mut self, i: usize, node: &Node)
        ensures long { i < 8 → i < length self.old.nodes }
        ensures shown { i < 8 → self.new ≡ record { fetched = self.old.fetched; nodes = slice_set self.old.nodes i node.now } }
    {
        if i < 8 {
            self.nodes[i] = node.look();
        }
    }

    /// Node i is fetched: what it showed counts from now on.
    pub fn mark(&mut self, i: usize)
        ensures fetched { i < 8 → got self.new ≡ upd (got self.old) i true }
        ensures answers { (m : Meaning) → i < 8 → answer m self.new ≡ upd (answer m self.old) i (shown m self.old i) }
        ensures nodes { self.new.nodes ≡ self.old.nodes }
    {
        if i < 8 {
            self.fetched = with_bit(self.fetched, i);
        }
    }

    /// Whether the round closes: n - f nodes were fetched.
    #[tactic(auto, using(crate::proofs::Masks::closes_is))]
    pub fn closes<C: Code>(&self) -> bool
        ensures { result ≡ closes C.Code.meaning (got self.now) }
    {
        let all = (1u32 << C::N) - 1;
        let fetched = u32::from(self.fetched) & all;
        fetched.count_ones() as usize >= C::N - C::F
    }

    // Node i, if it was fetched.
    pub(crate) fn at(&self, i: usize) -> Option<&Node>
        requires { i < 8 }
        ensures { (m : Meaning) → option_map (λ x. node_of m x.now) result ≡ (if got self.now i then Some (answer m self.now i) else None) }
    {
        if self.has(i) {
            Some(&self.nodes[i])
        } else {
            None
        }
    }

    // The higher of a stamp and the floor of node i, if that was fetched.
    fn floor_over<C: Code>(&self, top: Stamp, i: usize) -> Stamp
        requires { i < 8 }
        ensures { stamp_of result ≡ (if got self.now i then higher (stamp_of top) (answer C.Code.meaning self.now i).floor else stamp_of top) }
    {
        self.at(i).map_or(top, |node| top.higher(node.floor()))
    }

    /// The highest floor in the answers.
    pub fn top_floor<C: Code>(&self) -> Stamp
        ensures { stamp_of result ≡ top_floor (got self.now) (answer C.Code.meaning self.now) lowest 0 C.Code.meaning.n }
    {
        let mut top = Stamp::lowest();
        for i in 0..C::N {
            top = self.floor_over::<C>(top, i);
        }
        top
    }

    // The highest count of node i, if that was fetched.
    fn count_at<C: Code>(&self, i: usize) -> u32
        requires { i < 8 }
        ensures { result ≡ (if got self.now i then list_count (answer C.Code.meaning self.now i).floor.count (node_stamps (answer C.Code.meaning self.now i)) else 0) }
    {
        self.at(i).map_or(0, |node| node.top_count::<C>())
    }

    /// The highest count in any stamp of the answers, floors included.
    pub fn top_count<C: Code>(&self) -> u32
        ensures { result ≡ top_count (got self.now) (answer C.Code.meaning self.now) 0 C.Code.meaning.n }
    {
        let mut top = 0;
        for i in 0..C::N {
            top = top.max(self.count_at::<C>(i));
        }
        top
    }
}
