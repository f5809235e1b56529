//! Sessions: the right to call a segment as a client that is signed on, which cannot be let go.
//!
//! `Session::sign_on` gives one, a begin and a fetch need it, and `sign_off` takes it. A call with a session is the call of the
//! segment by that client's number: it does the same step, gives the same answer and writes the same places.
//! A session ends by a sign-off that is not refused, or by `park`. The check refuses code that lets one go, and code that uses one
//! after its end.
//! A `take` needs no session, since the bus carries requests; nor do the calls that only look at a segment.
#![tactic(auto)]

ghost use Rattle.std.specs.Prelude.{◌≡◌, ◌≤◌, IfOk, IfErr};
ghost use Rattle.record.specs.Layout.{layout};
ghost use Rattle.register.specs.Machine.{step, sign_on, sign_off, begin_write, begin_read, fetch};
ghost use Rattle.segment.specs.Views.{view};
ghost use Rattle.segment.specs.Told.{did, fetched, place_after, plain};
ghost use Rattle.session.specs.Sessions.{client_of, signed_on, signed_off};

use code::Code;
use record::Record;
use segment::{Fetched, Refusal, Segment};

/// The right to call as one client. It is not `Copy`, and nobody can let it go: sign it off or park it.
///
/// A session knows its client by number and no segment. At another segment than the one that gave it, it is the client of its
/// number there: each call answers as the call by that number, so at worst it is refused, and nothing else is promised.
#[must_use]
#[derive(Debug)]
pub struct Session {
    client: u32,
}

impl Drop for Session {
    // Client 8 and above are in no segment, and no sign-on gives a session of one. So none that was given can be dropped: where
    // one would be, the check asks for a proof of this.
    fn drop(self)
        requires of_no_client { 8 ≤ client_of self }
    {
        let Session { client: _ } = self;
    }
}

impl Session {
    /// Signs a client on, and gives the session that calls as it.
    pub fn sign_on<C: Code>(segment: &mut Segment<C>, client: u32) -> Result<Session, Refusal>
        ensures after { view C.Code.meaning segment.new ≡ (step C.Code.meaning (sign_on client) (view C.Code.meaning segment.old)).after }
        ensures answer { signed_on result ≡ plain (step C.Code.meaning (sign_on client) (view C.Code.meaning segment.old)).outcome }
        ensures session { IfOk result (λ s. client_of s ≡ client) }
    {
        segment.sign_on(client)?;
        Ok(Session { client })
    }

    /// The client that the session calls as.
    pub fn client(&self) -> u32
        ensures { result ≡ client_of self.now }
    {
        self.client
    }

    /// Begins a write: a Look round goes out to all nodes.
    pub fn begin_write<C: Code>(
        &self,
        segment: &mut Segment<C>,
        content: &Record,
    ) -> Result<(), Refusal>
        ensures after { view C.Code.meaning segment.new ≡ (step C.Code.meaning (begin_write (client_of self.now) (layout content.now)) (view C.Code.meaning segment.old)).after }
        ensures answer { did result ≡ plain (step C.Code.meaning (begin_write (client_of self.now) (layout content.now)) (view C.Code.meaning segment.old)).outcome }
    {
        segment.begin_write(self.client, content)
    }

    /// Begins a read that may open so many Look rounds, 1 to 250. The first goes out to all nodes.
    pub fn begin_read<C: Code>(&self, segment: &mut Segment<C>, rounds: u32) -> Result<(), Refusal>
        ensures after { view C.Code.meaning segment.new ≡ (step C.Code.meaning (begin_read (client_of self.now) rounds) (view C.Code.meaning segment.old)).after }
        ensures answer { did result ≡ plain (step C.Code.meaning (begin_read (client_of self.now) rounds) (view C.Code.meaning segment.old)).outcome }
    {
        segment.begin_read(self.client, rounds)
    }

    /// Removes a node's answer from the client's mailbox, for its open operation.
    /// A record that a read found goes into the place; no other answer writes it.
    pub fn fetch<C: Code>(
        &self,
        segment: &mut Segment<C>,
        node: u32,
        place: &mut Record,
    ) -> Result<Fetched, Refusal>
        ensures after { view C.Code.meaning segment.new ≡ (step C.Code.meaning (fetch (client_of self.now) node) (view C.Code.meaning segment.old)).after }
        ensures answer { fetched result place.new ≡ plain (step C.Code.meaning (fetch (client_of self.now) node) (view C.Code.meaning segment.old)).outcome }
        ensures place { layout place.new ≡ place_after (plain (step C.Code.meaning (fetch (client_of self.now) node) (view C.Code.meaning segment.old)).outcome) (layout place.old) }
    {
        segment.fetch(self.client, node, place)
    }

    /// Signs the client off, which ends the session. Where that is refused, the session is handed back with the refusal.
    pub fn sign_off<C: Code>(self, segment: &mut Segment<C>) -> Result<(), (Session, Refusal)>
        ensures after { view C.Code.meaning segment.new ≡ (step C.Code.meaning (sign_off (client_of self)) (view C.Code.meaning segment.old)).after }
        ensures answer { signed_off result ≡ plain (step C.Code.meaning (sign_off (client_of self)) (view C.Code.meaning segment.old)).outcome }
        ensures handed_back { IfErr result (λ (s, e). s ≡ self) }
    {
        match segment.sign_off(self.client) {
            Ok(()) => {
                self.park();
                Ok(())
            }
            Err(refusal) => Err((self, refusal)),
        }
    }

    /// Ends the session, and nothing else: the client stays what it is, and calls by its number, which this gives, go on.
    pub fn park(self) -> u32
        ensures { result ≡ client_of self }
    {
        let Session { client } = self;
        client
    }
}
