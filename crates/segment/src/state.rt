//! What a segment is made of: plain tags, and the structs that lie beside them.
use crate::refusals::Ending;
use node::{Node, Stamp};
use reads::Answers;
use record::Record;
use std::marker::PhantomData;

/// What a round asks of the nodes.
#[derive(Clone, Copy, PartialEq, Eq, Debug)]
pub enum Round {
    Look,
    Store,
    Settle,
}

// What a client asks of the nodes. A Look uses the round alone, and a Settle the stamp too.
// During an operation this is also its memory: the record of a write, its stamp, and the floor that goes with its Store.
#[derive(Clone, Copy)]
pub(crate) struct Request {
    pub(crate) round: Round,
    pub(crate) stamp: Stamp,
    pub(crate) floor: Stamp,
    pub(crate) whole: [u8; 24],
}

// What is in a mailbox: nothing, a request that waits, or the answer to one.
#[derive(Clone, Copy)]
pub(crate) enum Mail {
    Empty,
    Waiting,
    Looked,
    Stored,
    Settled,
}

// The mailboxes of one client. A new round puts the same request into all of them, so it stands here once.
// What a node showed lies in `answers`, where it stays when it is fetched: a mailbox whose answer was fetched is empty.
#[derive(Clone, Copy)]
pub(crate) struct Post {
    pub(crate) request: Request,
    pub(crate) mails: [Mail; 8],
    pub(crate) answers: Answers,
}

// What a client is at: off, idle, or in a round of its open operation.
#[derive(Clone, Copy)]
pub(crate) enum Phase {
    Off,
    Idle,
    WriteLook,
    WriteStore,
    WriteSettle,
    ReadLook,
}

// The Look rounds that a read may open, and those it has opened.
#[derive(Clone, Copy)]
pub(crate) struct Rounds {
    pub(crate) allowed: u8,
    pub(crate) used: u8,
}

// The entry of one client: what it is at, the record that it found last since it signed on, and its mailboxes.
#[derive(Clone, Copy)]
pub(crate) struct Entry {
    pub(crate) phase: Phase,
    pub(crate) rounds: Rounds,
    pub(crate) last: Option<Record>,
    pub(crate) post: Post,
}

// The client table.
#[derive(Clone, Copy)]
pub(crate) struct Table {
    pub(crate) entries: [Entry; 8],
}

// The clients laid out, the nodes, and the client table.
#[derive(Clone, Copy)]
pub(crate) struct State {
    pub(crate) clients: u8,
    pub(crate) nodes: [Node; 8],
    pub(crate) table: Table,
}

/// A segment whose nodes hold the pieces of the code C.
#[derive(Drop)]
pub struct Segment<C> {
    pub(crate) state: State,
    pub(crate) code: PhantomData<C>,
}

/// Whether a record that was found is the same as the one found last.
#[derive(Clone, Copy, PartialEq, Eq, Debug)]
pub enum Sight {
    New,
    Same,
}

/// What a read found, beside the record itself.
#[derive(Clone, Copy)]
pub struct Reading {
    /// how many Look rounds it opened
    pub rounds: u8,
    /// the stamp of the record
    pub stamp: Stamp,
    pub sight: Sight,
}

/// What a fetch came to.
#[derive(Clone, Copy)]
pub enum Fetched {
    /// The answer was kept, and the round goes on.
    Kept,
    /// The round closed, and the next one began.
    NextRound,
    /// The write ended, under this stamp.
    Wrote(Stamp),
    /// The read ended, and its record is in the place handed over.
    Read(Reading),
    /// The operation ended without what it was for.
    Ended(Ending),
}

/// A client and a node where a request of the client waits.
#[derive(Clone, Copy, PartialEq, Eq, Debug)]
pub struct Waiting {
    pub client: u8,
    pub node: u8,
}
