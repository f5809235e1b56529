//! A record spread over nodes, and what comes back where some of them are silent.
ghost use Rattle.std.specs.Prelude.{◌≡◌, ℕ, List, IfOk};
ghost use Rattle.code.specs.Bytes.{Bytes};
ghost use Rattle.spread.specs.Trials.{Picked, Spread};

use anyhow::anyhow;
use code::{Code, Piece};
use std::alloc::{AllocError, Global};
use std::marker::PhantomData;

// A code refuses neither the pieces that it made nor places of the right size.
const REFUSED: &str = "a code refused its own piece";

/// A record, and the nodes of a code, each of which holds its piece of the record.
#[derive(Drop)]
pub(crate) struct Nodes<C: Code> {
    heap: Global,
    whole: [u8; 24],
    // the piece of node i at i
    pieces: Vec<Vec<u8>>,
    code: PhantomData<C>,
    ghost bytes: { Bytes 24 whole },
    ghost each: { Spread C.Code.meaning whole pieces.items },
}

/// What came of silencing every set of as many nodes as a code bears.
#[derive(Clone, Copy, Default)]
pub(crate) struct Survival {
    /// how many such sets there are
    pub choices: u32,
    /// with how many of them silent the record came back
    pub survived: u32,
    /// what came back last
    pub rebuilt: Option<[u8; 24]>,
}

// The piece of one node.
fn piece_of<C: Code>(heap: Global, whole: &[u8; 24], number: u8) -> anyhow::Result<Vec<u8>>
    ensures { IfOk result (λ v. v.items ≡ C.Code.meaning.piece whole.now number) }
{
    let mut piece = vec![in heap; 0u8; C::width()]?;
    C::make(whole, number, piece.as_mut_slice()).map_err(|_| anyhow!(REFUSED))?;
    Ok(piece)
}

// The pieces of a record, the one of node i at i.
#[tactic(auto, using(crate::proofs::Spreads::next_node))]
fn pieces_of<C: Code>(heap: Global, whole: &[u8; 24]) -> anyhow::Result<Vec<Vec<u8>>>
    ensures { IfOk result (λ v. Spread C.Code.meaning whole.now v.items) }
{
    // A loop, since each step may fail: a `try_collect` would be no plainer.
    let mut pieces = Vec::new(heap);
    for node in 0..C::N {
        pieces.push(piece_of::<C>(heap, whole, node as u8)?)?;
    }
    Ok(pieces)
}

impl<C: Code> Nodes<C> {
    /// Spreads a record over the nodes.
    pub(crate) fn of(heap: Global, whole: &[u8; 24]) -> anyhow::Result<Nodes<C>>
        ensures { IfOk result (λ s. s.whole ≡ whole.now) }
    {
        let pieces = pieces_of::<C>(heap, whole)?;
        Ok(Nodes {
            heap,
            whole: *whole,
            pieces,
            code: PhantomData,
        })
    }

    /// The piece of each node.
    pub(crate) fn pieces(&self) -> &[Vec<u8>]
        ensures { Spread C.Code.meaning self.now.whole result.now }
    {
        self.pieces.as_slice()
    }

    // The pieces of the first k nodes that are not silent.
    fn chosen(&self, silent: u32) -> Result<Vec<Piece<'_>>, AllocError>
        ensures { IfOk result (λ v. Picked C.Code.meaning self.now.pieces.items v.items) }
    {
        (0..C::N as u8)
            .zip(&self.pieces)
            // The remainder is for the proof: a number is below n, which a closure does not know.
            .filter(|(number, _)| silent >> (number % 32) & 1 == 0)
            .take(C::K)
            .map(|(number, piece)| Piece {
                number,
                bytes: piece.as_slice(),
            })
            .collect(self.heap)
    }

    // What k nodes that are not silent give back.
    fn rebuild(&self, silent: u32) -> anyhow::Result<[u8; 24]>
        ensures any { (x : List ℕ) → Bytes 24 x → Spread C.Code.meaning x self.now.pieces.items → IfOk result (λ y. y ≡ x) }
        ensures own { IfOk result (λ y. y ≡ self.now.whole) }
    {
        let picked = self.chosen(silent)?;
        let mut whole = [0; 24];
        C::join(picked.as_slice(), &mut whole).map_err(|_| anyhow!(REFUSED))?;
        Ok(whole)
    }

    /// Silences each set of f nodes in turn. The record comes back from every choice.
    pub(crate) fn silence_all(&self) -> anyhow::Result<Survival>
        ensures { IfOk result (λ s. s.survived ≡ s.choices) }
    {
        // The test stands in the loop: a `filter` of the range by a closure is not covered by the check here.
        let mut all = Survival::default();
        for silent in 0..1u32 << C::N {
            if silent.count_ones() as usize == C::F {
                all = all.noted(self.rebuild(silent)?, &self.whole);
            }
        }
        Ok(all)
    }
}

impl Survival {
    // One choice more, and what it gave back.
    fn noted(self, rebuilt: [u8; 24], whole: &[u8; 24]) -> Survival
        ensures { rebuilt ≡ whole.now → self.survived ≡ self.choices → result.survived ≡ result.choices }
    {
        let back = u32::from(rebuilt == *whole);
        Survival {
            choices: self.choices.saturating_add(1),
            survived: self.survived.saturating_add(back),
            rebuilt: Some(rebuilt),
        }
    }
}
