//! Laying a segment out.
ghost use Rattle.std.specs.Prelude.{◌≡◌, ℕ, ◌<◌, [], ◌∷◌, replicate, IfOk, slice_index_or};
ghost use Rattle.record.specs.Layout.{layout};
ghost use Rattle.register.specs.Nodes.{free};
ghost use Rattle.register.specs.Machine.{lay_out_refusal, laid_out};
ghost use Rattle.register.specs.Promises.{ARecord, SafeFrom};
ghost use Rattle.node.specs.Stamped.{stamp as stamp_of};
ghost use Rattle.node.specs.Views.{node as node_of};
ghost use Rattle.reads.specs.Views.{past_nodes};
ghost use Rattle.segment.specs.declared.state.Phase.TheVariants.{Off};
ghost use Rattle.segment.specs.declared.state.Mail.TheVariants.{Empty};
ghost use Rattle.segment.specs.Refusals.{refused};
ghost use Rattle.segment.specs.Views.{view};

use crate::refusals::Refusal;
use crate::state::{Entry, Mail, Phase, Post, Request, Rounds, Segment, State, Table};
use code::Code;
use node::{Node, Stamp, Stamped};
use reads::Answers;
use record::Record;
use std::marker::PhantomData;

// The bytes of the first record, which are what the promises ask of a record handed over.
fn first_bytes(first: Record) -> [u8; 24]
    ensures bytes { result ≡ layout first }
    ensures proper { ARecord result }
{
    first.to_bytes()
}

// The nodes with their pieces of the first record.
fn first_nodes<C: Code>(stamp: Stamp, whole: [u8; 24]) -> [Node; 8]
    ensures { (j : ℕ) → j < C.Code.meaning.n → node_of C.Code.meaning (slice_index_or result j past_nodes) ≡ record { floor = stamp_of stamp; shelf = record { stamp = stamp_of stamp; bytes = C.Code.meaning.piece whole j } ∷ []; spare = free } }
{
    let mut nodes = [Node::empty(); 8];
    for i in 0..C::N {
        nodes[i] = Node::laid::<C>(
            i as u8,
            Stamped {
                stamp,
                bytes: whole,
            },
        );
    }
    nodes
}

// The entry of a client that was never on.
fn first_entry() -> Entry
    ensures off { result.phase ≡ Off }
    ensures empty { result.post.mails ≡ replicate 8 Empty }
{
    Entry {
        phase: Phase::Off,
        rounds: Rounds {
            allowed: 0,
            used: 0,
        },
        last: None,
        post: Post {
            request: Request::look([0; 24]),
            mails: [Mail::Empty; 8],
            answers: Answers::none(),
        },
    }
}

impl<C: Code> Segment<C> {
    /// Lays a segment out for 1 to 8 clients: every node has its piece of the first record, under the first count.
    /// From this segment every list of calls keeps the register's promises: writes stand in one order, a read gives all of one
    /// write and nothing outdated, any n - f nodes rebuild what was acknowledged, and no node outgrows its memory.
    pub fn lay_out(clients: u32, count: u32, first: &Record) -> Result<Segment<C>, Refusal>
        ensures refuses { refused result ≡ lay_out_refusal clients count }
        ensures laid { IfOk result (λ s. view C.Code.meaning s ≡ laid_out C.Code.meaning clients count (layout first.now)) }
        ensures safe { IfOk result (λ s. SafeFrom C.Code.meaning count (layout first.now) (view C.Code.meaning s)) }
    {
        if !(1..=8).contains(&clients) {
            return Err(Refusal::Clients);
        }
        if count > 999_999_999 {
            return Err(Refusal::Count);
        }
        let stamp = Stamp { count, client: 0 };
        let state = State {
            clients: clients as u8,
            nodes: first_nodes::<C>(stamp, first_bytes(*first)),
            table: Table {
                entries: [first_entry(); 8],
            },
        };
        Ok(Segment {
            state,
            code: PhantomData,
        })
    }
}
