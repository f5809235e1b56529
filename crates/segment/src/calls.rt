//! The calls of a segment, by client number. Each does the step of its name, or refuses and changes nothing.
ghost use Rattle.std.specs.Prelude.{◌≡◌, min, nat_lt};
ghost use Rattle.record.specs.Layout.{layout};
ghost use Rattle.register.specs.Machine.{step, sign_on, sign_off, begin_write, begin_read, take, fetch, held, Next};
ghost use Rattle.segment.specs.Views.{view};
ghost use Rattle.segment.specs.Told.{did, took, fetched, place_after, counted, named, plain};

use crate::refusals::Refusal;
use crate::state::{Fetched, Round, Segment, State, Waiting};
use code::Code;
use record::Record;

impl State {
    // Whether a client is laid out.
    fn has_client(&self, client: u32) -> bool
        ensures { result ≡ nat_lt client (min self.now.clients 8) }
    {
        client < u32::from(self.clients) && client < 8
    }
}

impl<C: Code> Segment<C> {
    /// Signs a client on. It is idle then, and has found no record yet.
    pub fn sign_on(&mut self, client: u32) -> Result<(), Refusal>
        ensures after { view C.Code.meaning self.new ≡ (step C.Code.meaning (sign_on client) (view C.Code.meaning self.old)).after }
        ensures answer { did result ≡ plain (step C.Code.meaning (sign_on client) (view C.Code.meaning self.old)).outcome }
    {
        if !self.state.has_client(client) {
            return Err(Refusal::NoClient);
        }
        self.state.table.sign_on::<C>(client as usize)
    }

    /// Signs a client off that has no operation open. Its requests that wait stay where they are.
    pub fn sign_off(&mut self, client: u32) -> Result<(), Refusal>
        ensures after { view C.Code.meaning self.new ≡ (step C.Code.meaning (sign_off client) (view C.Code.meaning self.old)).after }
        ensures answer { did result ≡ plain (step C.Code.meaning (sign_off client) (view C.Code.meaning self.old)).outcome }
    {
        if !self.state.has_client(client) {
            return Err(Refusal::NoClient);
        }
        self.state.table.sign_off::<C>(client as usize)
    }

    /// Begins a write: a Look round goes out to all nodes.
    pub fn begin_write(&mut self, client: u32, content: &Record) -> Result<(), Refusal>
        ensures after { view C.Code.meaning self.new ≡ (step C.Code.meaning (begin_write client (layout content.now)) (view C.Code.meaning self.old)).after }
        ensures answer { did result ≡ plain (step C.Code.meaning (begin_write client (layout content.now)) (view C.Code.meaning self.old)).outcome }
    {
        if !self.state.has_client(client) {
            return Err(Refusal::NoClient);
        }
        self.state
            .table
            .begin_write::<C>(client as usize, content.to_bytes())
    }

    /// Begins a read that may open so many Look rounds, 1 to 250. The first goes out to all nodes.
    pub fn begin_read(&mut self, client: u32, rounds: u32) -> Result<(), Refusal>
        ensures after { view C.Code.meaning self.new ≡ (step C.Code.meaning (begin_read client rounds) (view C.Code.meaning self.old)).after }
        ensures answer { did result ≡ plain (step C.Code.meaning (begin_read client rounds) (view C.Code.meaning self.old)).outcome }
    {
        if !self.state.has_client(client) {
            return Err(Refusal::NoClient);
        }
        self.state.table.begin_read::<C>(client as usize, rounds)
    }

    /// Lets a node carry out the request of a client that waits there, and tells which round it was of.
    pub fn take(&mut self, client: u32, node: u32) -> Result<Round, Refusal>
        ensures after { view C.Code.meaning self.new ≡ (step C.Code.meaning (take client node) (view C.Code.meaning self.old)).after }
        ensures answer { took result ≡ plain (step C.Code.meaning (take client node) (view C.Code.meaning self.old)).outcome }
    {
        if !self.state.has_client(client) {
            return Err(Refusal::NoClient);
        }
        if node as usize >= C::N {
            return Err(Refusal::NoNode);
        }
        let i = node as usize;
        self.state
            .table
            .take::<C>(client as usize, i, &mut self.state.nodes[i])
    }

    /// Removes a node's answer from a client's mailbox, for the client's open operation.
    /// A record that a read found goes into the place; no other answer writes it.
    pub fn fetch(&mut self, client: u32, node: u32, place: &mut Record) -> Result<Fetched, Refusal>
        ensures after { view C.Code.meaning self.new ≡ (step C.Code.meaning (fetch client node) (view C.Code.meaning self.old)).after }
        ensures answer { fetched result place.new ≡ plain (step C.Code.meaning (fetch client node) (view C.Code.meaning self.old)).outcome }
        ensures place { layout place.new ≡ place_after (plain (step C.Code.meaning (fetch client node) (view C.Code.meaning self.old)).outcome) (layout place.old) }
    {
        if !self.state.has_client(client) {
            return Err(Refusal::NoClient);
        }
        if node as usize >= C::N {
            return Err(Refusal::NoNode);
        }
        self.state
            .table
            .fetch::<C>(client as usize, node as usize, place)
    }

    /// How many bytes of records a node holds.
    pub fn held(&self, node: u32) -> Result<usize, Refusal>
        ensures { counted result ≡ held C.Code.meaning node (view C.Code.meaning self.now) }
    {
        if node as usize >= C::N {
            return Err(Refusal::NoNode);
        }
        Ok(self.state.nodes[node as usize].held::<C>())
    }

    /// Some client and node where a request waits. Which of them is named is not promised.
    pub fn next_waiting(&self) -> Result<Waiting, Refusal>
        ensures { Next C.Code.meaning (view C.Code.meaning self.now) (named result) }
    {
        for client in 0..self.state.clients.min(8) {
            if let Some(node) = self.state.table.first_waiting::<C>(client as usize) {
                return Ok(Waiting { client, node });
            }
        }
        Err(Refusal::NothingWaits)
    }
}
