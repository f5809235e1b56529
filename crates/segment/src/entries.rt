//! The turns of one client: what each call does to its entry.
ghost use Rattle.std.specs.Prelude.{◌≡◌, ◌<◌, true, Ok};
ghost use Rattle.record.specs.Layout.{layout};
ghost use Rattle.register.specs.Tables.{upd};
ghost use Rattle.register.specs.Machine.{on_turn, off_turn, write_turn, read_turn, write_look_turn, store_turn, settle_turn, read_look_turn, fetch_turn, visit, is_same as same_of};
ghost use Rattle.node.specs.Stamped.{stamp as stamp_of};
ghost use Rattle.node.specs.Views.{node as node_of};
ghost use Rattle.reads.specs.Views.{got, shown, answer};
ghost use Rattle.segment.specs.declared.state.Phase.TheVariants.{WriteLook, WriteStore, WriteSettle, ReadLook};
ghost use Rattle.segment.specs.Views.{mails as mails_of, last as last_of, client as client_of};
ghost use Rattle.segment.specs.Told.{did, took, fetched, is_same, place_after, WritesNothing, Turned, Visited};

use crate::refusals::{Ending, Refusal};
use crate::state::{Entry, Fetched, Mail, Phase, Reading, Request, Round, Rounds, Sight};
use code::Code;
use node::{Node, Stamp};
use record::Record;

// The highest count that a stamp can have.
const LAST_COUNT: u32 = 999_999_999;

// Whether a record is the same as the last one found, if there is one.
#[tactic(auto, using(record::proofs::Whole::layout_same))]
fn sight(last: &Option<Record>, content: &Record) -> Sight
    ensures { is_same result ≡ same_of (last_of last.now) (layout content.now) }
{
    if last.is_some_and(|before| before.same(content)) {
        Sight::Same
    } else {
        Sight::New
    }
}

impl Entry {
    #[tactic(auto, unfolding(register::specs::Machine::on_turn))]
    pub(crate) fn sign_on<C: Code>(&mut self) -> Result<(), Refusal>
        ensures { Turned C.Code.meaning self.new (did result) (on_turn (client_of C.Code.meaning self.old) (mails_of C.Code.meaning self.old.post)) }
    {
        match self.phase {
            Phase::Off => {
                self.phase = Phase::Idle;
                self.last = None;
                Ok(())
            }
            _ => Err(Refusal::AlreadyOn),
        }
    }

    #[tactic(auto, unfolding(register::specs::Machine::off_turn))]
    pub(crate) fn sign_off<C: Code>(&mut self) -> Result<(), Refusal>
        ensures { Turned C.Code.meaning self.new (did result) (off_turn (client_of C.Code.meaning self.old) (mails_of C.Code.meaning self.old.post)) }
    {
        match self.phase {
            Phase::Off => Err(Refusal::SignedOff),
            Phase::Idle => {
                self.phase = Phase::Off;
                Ok(())
            }
            _ => Err(Refusal::OperationOpen),
        }
    }

    #[tactic(auto, unfolding(register::specs::Machine::write_turn))]
    pub(crate) fn begin_write<C: Code>(&mut self, whole: [u8; 24]) -> Result<(), Refusal>
        ensures { Turned C.Code.meaning self.new (did result) (write_turn C.Code.meaning whole (client_of C.Code.meaning self.old) (mails_of C.Code.meaning self.old.post)) }
    {
        match self.phase {
            Phase::Off => Err(Refusal::SignedOff),
            Phase::Idle => {
                self.phase = Phase::WriteLook;
                self.post.ask::<C>(Request::look(whole));
                Ok(())
            }
            _ => Err(Refusal::OperationOpen),
        }
    }

    #[tactic(auto, unfolding(register::specs::Machine::read_turn))]
    pub(crate) fn begin_read<C: Code>(&mut self, rounds: u32) -> Result<(), Refusal>
        ensures { Turned C.Code.meaning self.new (did result) (read_turn C.Code.meaning rounds (client_of C.Code.meaning self.old) (mails_of C.Code.meaning self.old.post)) }
    {
        match self.phase {
            Phase::Off => Err(Refusal::SignedOff),
            Phase::Idle => {
                if !(1..=250).contains(&rounds) {
                    return Err(Refusal::Rounds);
                }
                self.phase = Phase::ReadLook;
                self.rounds = Rounds {
                    allowed: rounds as u8,
                    used: 1,
                };
                self.post.ask::<C>(Request::look([0; 24]));
                Ok(())
            }
            _ => Err(Refusal::OperationOpen),
        }
    }

    // A Look answer of a write. At the close of the round the write is stamped above the highest count, unless there is none.
    fn fetch_look<C: Code>(&mut self, me: u8, i: usize) -> Fetched
        requires there { i < C.Code.meaning.n }
        requires open { self.old.phase ≡ WriteLook }
        ensures turned { (p : Record) → Turned C.Code.meaning self.new (fetched (Ok result) p) (write_look_turn C.Code.meaning me i (mails_of C.Code.meaning self.old.post) (last_of self.old.last) self.old.post.request.whole (upd (got self.old.post.answers) i true) (upd (answer C.Code.meaning self.old.post.answers) i (shown C.Code.meaning self.old.post.answers i))) }
        ensures place { WritesNothing result }
    {
        if !self.post.closes_with::<C>(i) {
            return Fetched::Kept;
        }
        let top = self.post.answers.top_count::<C>();
        if top >= LAST_COUNT {
            self.phase = Phase::Idle;
            return Fetched::Ended(Ending::CountsUsed);
        }
        let stamp = Stamp {
            count: top + 1,
            client: me,
        };
        let floor = self.post.answers.top_floor::<C>();
        let whole = self.post.request.whole;
        self.phase = Phase::WriteStore;
        self.post.ask::<C>(Request {
            round: Round::Store,
            stamp,
            floor,
            whole,
        });
        Fetched::NextRound
    }

    // A Store answer. At the close of the round the stamp is settled.
    fn fetch_store<C: Code>(&mut self, me: u8, i: usize) -> Fetched
        requires there { i < C.Code.meaning.n }
        requires open { self.old.phase ≡ WriteStore }
        ensures turned { (p : Record) → Turned C.Code.meaning self.new (fetched (Ok result) p) (store_turn C.Code.meaning me i (mails_of C.Code.meaning self.old.post) (last_of self.old.last) self.old.post.request.whole (stamp_of self.old.post.request.stamp) (stamp_of self.old.post.request.floor) (upd (got self.old.post.answers) i true)) }
        ensures place { WritesNothing result }
    {
        if !self.post.closes_with::<C>(i) {
            return Fetched::Kept;
        }
        let mut request = self.post.request;
        request.round = Round::Settle;
        self.phase = Phase::WriteSettle;
        self.post.ask::<C>(request);
        Fetched::NextRound
    }

    // A Settle answer. At the close of the round the write ends.
    fn fetch_settle<C: Code>(&mut self, me: u8, i: usize) -> Fetched
        requires there { i < C.Code.meaning.n }
        requires open { self.old.phase ≡ WriteSettle }
        ensures turned { (p : Record) → Turned C.Code.meaning self.new (fetched (Ok result) p) (settle_turn C.Code.meaning me i (mails_of C.Code.meaning self.old.post) (last_of self.old.last) self.old.post.request.whole (stamp_of self.old.post.request.stamp) (upd (got self.old.post.answers) i true)) }
        ensures place { WritesNothing result }
    {
        if !self.post.closes_with::<C>(i) {
            return Fetched::Kept;
        }
        self.phase = Phase::Idle;
        Fetched::Wrote(self.post.request.stamp)
    }

    // A Look answer of a read. At the close of the round the read ends with the record that the answers rebuild, or looks again.
    fn fetch_read<C: Code>(&mut self, me: u8, i: usize, place: &mut Record) -> Fetched
        requires there { i < C.Code.meaning.n }
        requires open { self.old.phase ≡ ReadLook }
        ensures turned { Turned C.Code.meaning self.new (fetched (Ok result) place.new) (read_look_turn C.Code.meaning me i (mails_of C.Code.meaning self.old.post) (last_of self.old.last) self.old.rounds.allowed self.old.rounds.used (upd (got self.old.post.answers) i true) (upd (answer C.Code.meaning self.old.post.answers) i (shown C.Code.meaning self.old.post.answers i))) }
        ensures place { layout place.new ≡ place_after (fetched (Ok result) place.new) (layout place.old) }
    {
        if !self.post.closes_with::<C>(i) {
            return Fetched::Kept;
        }
        match self.post.answers.rebuild::<C>() {
            None => {
                if self.rounds.used >= self.rounds.allowed {
                    self.phase = Phase::Idle;
                    return Fetched::Ended(Ending::RoundsUsed);
                }
                self.rounds.used += 1;
                self.post.ask::<C>(Request::look([0; 24]));
                Fetched::NextRound
            }
            Some(found) => {
                let sight = sight(&self.last, &found.content);
                self.phase = Phase::Idle;
                self.last = Some(found.content);
                *place = found.content;
                Fetched::Read(Reading {
                    rounds: self.rounds.used,
                    stamp: found.stamp,
                    sight,
                })
            }
        }
    }

    // What a fetch does depends on the open operation and the answer together.
    pub(crate) fn fetch<C: Code>(
        &mut self,
        me: u8,
        i: usize,
        place: &mut Record,
    ) -> Result<Fetched, Refusal>
        requires { i < C.Code.meaning.n }
        ensures turned { Turned C.Code.meaning self.new (fetched result place.new) (fetch_turn C.Code.meaning me i (client_of C.Code.meaning self.old) (mails_of C.Code.meaning self.old.post)) }
        ensures place { layout place.new ≡ place_after (fetched result place.new) (layout place.old) }
    {
        match (self.phase, self.post.mail(i)) {
            (Phase::Off, _) => Err(Refusal::SignedOff),
            (Phase::Idle, _) => Err(Refusal::NothingOpen),
            (Phase::WriteLook, Mail::Looked) => Ok(self.fetch_look::<C>(me, i)),
            (Phase::WriteStore, Mail::Stored) => Ok(self.fetch_store::<C>(me, i)),
            (Phase::WriteSettle, Mail::Settled) => Ok(self.fetch_settle::<C>(me, i)),
            (Phase::ReadLook, Mail::Looked) => Ok(self.fetch_read::<C>(me, i, place)),
            _ => Err(Refusal::NoAnswer),
        }
    }

    // A take: node i carries out the request in its mailbox.
    pub(crate) fn take<C: Code>(&mut self, i: usize, node: &mut Node) -> Result<Round, Refusal>
        requires { i < C.Code.meaning.n }
        ensures { Visited C.Code.meaning i self.old self.new node.new (took result) (visit C.Code.meaning i (node_of C.Code.meaning node.old) (mails_of C.Code.meaning self.old.post i)) }
    {
        if !self.post.is_waiting(i) {
            return Err(Refusal::NothingThere);
        }
        self.post.serve::<C>(i, node);
        Ok(self.post.request.round)
    }
}
