//! The client table: each call changes the entry of one client, and the others stay.
ghost use Rattle.std.specs.Prelude.{◌≡◌, ◌<◌, length, slice_index_or, slice_set};
ghost use Rattle.record.specs.Layout.{layout};
ghost use Rattle.register.specs.Machine.{on_turn, off_turn, write_turn, read_turn, fetch_turn, visit};
ghost use Rattle.node.specs.Views.{node as node_of};
ghost use Rattle.segment.specs.Views.{mails as mails_of, client as client_of, tag, no_entry};
ghost use Rattle.segment.specs.Waits.{is_waiting, First};
ghost use Rattle.segment.specs.Told.{did, took, fetched, place_after, Turned, Visited};

use crate::refusals::Refusal;
use crate::state::{Fetched, Round, Table};
use code::Code;
use node::Node;
use record::Record;

impl Table {
    pub(crate) fn sign_on<C: Code>(&mut self, c: usize) -> Result<(), Refusal>
        requires { c < 8 }
        ensures long { c < length self.old.entries }
        ensures framed { self.new.entries ≡ slice_set self.old.entries c (slice_index_or self.new.entries c no_entry) }
        ensures turned { Turned C.Code.meaning (slice_index_or self.new.entries c no_entry) (did result) (on_turn (client_of C.Code.meaning (slice_index_or self.old.entries c no_entry)) (mails_of C.Code.meaning (slice_index_or self.old.entries c no_entry).post)) }
    {
        self.entries[c].sign_on::<C>()
    }

    pub(crate) fn sign_off<C: Code>(&mut self, c: usize) -> Result<(), Refusal>
        requires { c < 8 }
        ensures long { c < length self.old.entries }
        ensures framed { self.new.entries ≡ slice_set self.old.entries c (slice_index_or self.new.entries c no_entry) }
        ensures turned { Turned C.Code.meaning (slice_index_or self.new.entries c no_entry) (did result) (off_turn (client_of C.Code.meaning (slice_index_or self.old.entries c no_entry)) (mails_of C.Code.meaning (slice_index_or self.old.entries c no_entry).post)) }
    {
        self.entries[c].sign_off::<C>()
    }

    pub(crate) fn begin_write<C: Code>(&mut self, c: usize, whole: [u8; 24]) -> Result<(), Refusal>
        requires { c < 8 }
        ensures long { c < length self.old.entries }
        ensures framed { self.new.entries ≡ slice_set self.old.entries c (slice_index_or self.new.entries c no_entry) }
        ensures turned { Turned C.Code.meaning (slice_index_or self.new.entries c no_entry) (did result) (write_turn C.Code.meaning whole (client_of C.Code.meaning (slice_index_or self.old.entries c no_entry)) (mails_of C.Code.meaning (slice_index_or self.old.entries c no_entry).post)) }
    {
        self.entries[c].begin_write::<C>(whole)
    }

    pub(crate) fn begin_read<C: Code>(&mut self, c: usize, rounds: u32) -> Result<(), Refusal>
        requires { c < 8 }
        ensures long { c < length self.old.entries }
        ensures framed { self.new.entries ≡ slice_set self.old.entries c (slice_index_or self.new.entries c no_entry) }
        ensures turned { Turned C.Code.meaning (slice_index_or self.new.entries c no_entry) (did result) (read_turn C.Code.meaning rounds (client_of C.Code.meaning (slice_index_or self.old.entries c no_entry)) (mails_of C.Code.meaning (slice_index_or self.old.entries c no_entry).post)) }
    {
        self.entries[c].begin_read::<C>(rounds)
    }

    pub(crate) fn fetch<C: Code>(
        &mut self,
        c: usize,
        i: usize,
        place: &mut Record,
    ) -> Result<Fetched, Refusal>
        requires client { c < 8 }
        requires node { i < C.Code.meaning.n }
        ensures long { c < length self.old.entries }
        ensures framed { self.new.entries ≡ slice_set self.old.entries c (slice_index_or self.new.entries c no_entry) }
        ensures turned { Turned C.Code.meaning (slice_index_or self.new.entries c no_entry) (fetched result place.new) (fetch_turn C.Code.meaning c i (client_of C.Code.meaning (slice_index_or self.old.entries c no_entry)) (mails_of C.Code.meaning (slice_index_or self.old.entries c no_entry).post)) }
        ensures place { layout place.new ≡ place_after (fetched result place.new) (layout place.old) }
    {
        self.entries[c].fetch::<C>(c as u8, i, place)
    }

    pub(crate) fn take<C: Code>(
        &mut self,
        c: usize,
        i: usize,
        node: &mut Node,
    ) -> Result<Round, Refusal>
        requires client { c < 8 }
        requires node { i < C.Code.meaning.n }
        ensures long { c < length self.old.entries }
        ensures framed { self.new.entries ≡ slice_set self.old.entries c (slice_index_or self.new.entries c no_entry) }
        ensures visited { Visited C.Code.meaning i (slice_index_or self.old.entries c no_entry) (slice_index_or self.new.entries c no_entry) node.new (took result) (visit C.Code.meaning i (node_of C.Code.meaning node.old) (mails_of C.Code.meaning (slice_index_or self.old.entries c no_entry).post i)) }
    {
        self.entries[c].take::<C>(i, node)
    }

    // The first node where a request of client c waits.
    pub(crate) fn first_waiting<C: Code>(&self, c: usize) -> Option<u8>
        requires { c < 8 }
        ensures { First (λ i. is_waiting (tag (slice_index_or self.now.entries c no_entry).post i)) C.Code.meaning.n result }
    {
        self.entries[c].post.first_waiting::<C>()
    }
}
