//! The mailboxes of one client.
ghost use Rattle.std.specs.Prelude.{◌≡◌, ◌<◌, true};
ghost use Rattle.register.specs.Tables.{upd};
ghost use Rattle.register.specs.Machine.{closes, posted, empty, answered, answer as answers_with, served, nobody, no_answers};
ghost use Rattle.node.specs.Views.{node as node_of};
ghost use Rattle.reads.specs.Views.{got, shown, answer};
ghost use Rattle.segment.specs.declared.state.Round.TheVariants.{Look};
ghost use Rattle.segment.specs.Views.{request as request_of, tag, mails as mails_of};
ghost use Rattle.segment.specs.Waits.{is_waiting, First};

use crate::state::{Mail, Post, Request, Round};
use code::Code;
use node::{Node, Stamp, Stamped};

impl Request {
    // A Look, with the record that a write will store.
    pub(crate) fn look(whole: [u8; 24]) -> Request
        ensures round { result.round ≡ Look }
        ensures whole { result.whole ≡ whole }
    {
        Request {
            round: Round::Look,
            stamp: Stamp::lowest(),
            floor: Stamp::lowest(),
            whole,
        }
    }

    // What node i does with the request.
    #[tactic(auto, unfolding(register::specs::Machine::served))]
    fn carry_out<C: Code>(&self, i: usize, node: &mut Node)
        requires { i < C.Code.meaning.n }
        ensures { node_of C.Code.meaning node.new ≡ served C.Code.meaning i (request_of self.now) (node_of C.Code.meaning node.old) }
    {
        match self.round {
            Round::Look => (),
            Round::Store => node.store::<C>(
                i as u8,
                Stamped {
                    stamp: self.stamp,
                    bytes: self.whole,
                },
                self.floor,
            ),
            Round::Settle => node.settle::<C>(i as u8, self.stamp),
        }
    }
}

impl Post {
    // What is in mailbox i.
    pub(crate) fn mail(&self, i: usize) -> Mail
        requires { i < 8 }
        ensures { result ≡ tag self.now i }
    {
        if self.answers.has(i) {
            Mail::Empty
        } else {
            self.mails[i]
        }
    }

    // Whether a request waits in mailbox i.
    pub(crate) fn is_waiting(&self, i: usize) -> bool
        requires { i < 8 }
        ensures { result ≡ is_waiting (tag self.now i) }
    {
        matches!(self.mail(i), Mail::Waiting)
    }

    // The first node where a request waits.
    pub(crate) fn first_waiting<C: Code>(&self) -> Option<u8>
        ensures { First (λ i. is_waiting (tag self.now i)) C.Code.meaning.n result }
    {
        for i in 0..C::N {
            if self.is_waiting(i) {
                return Some(i as u8);
            }
        }
        None
    }

    // A new round: its request goes into all mailboxes and replaces what was there.
    pub(crate) fn ask<C: Code>(&mut self, request: Request)
        ensures request { self.new.request ≡ request }
        ensures mails { mails_of C.Code.meaning self.new ≡ posted C.Code.meaning.n (request_of request) }
        ensures fetched { got self.new.answers ≡ nobody }
        ensures answers { answer C.Code.meaning self.new.answers ≡ no_answers }
    {
        self.request = request;
        self.mails = [Mail::Waiting; 8];
        self.answers.clear();
    }

    // The answer in mailbox i is fetched: the mailbox is empty then, and the answer counts in the round.
    fn collect<C: Code>(&mut self, i: usize)
        requires { i < C.Code.meaning.n }
        ensures request { self.new.request ≡ self.old.request }
        ensures mails { mails_of C.Code.meaning self.new ≡ upd (mails_of C.Code.meaning self.old) i empty }
        ensures fetched { got self.new.answers ≡ upd (got self.old.answers) i true }
        ensures answers { answer C.Code.meaning self.new.answers ≡ upd (answer C.Code.meaning self.old.answers) i (shown C.Code.meaning self.old.answers i) }
    {
        self.answers.mark(i);
    }

    // The same, and whether the round closes with it.
    pub(crate) fn closes_with<C: Code>(&mut self, i: usize) -> bool
        requires { i < C.Code.meaning.n }
        ensures closes { result ≡ closes C.Code.meaning (upd (got self.old.answers) i true) }
        ensures request { self.new.request ≡ self.old.request }
        ensures mails { mails_of C.Code.meaning self.new ≡ upd (mails_of C.Code.meaning self.old) i empty }
        ensures fetched { got self.new.answers ≡ upd (got self.old.answers) i true }
        ensures answers { answer C.Code.meaning self.new.answers ≡ upd (answer C.Code.meaning self.old.answers) i (shown C.Code.meaning self.old.answers i) }
    {
        self.collect::<C>(i);
        self.answers.closes::<C>()
    }

    // Node i carries out the request that waits in its mailbox, and leaves its answer there.
    pub(crate) fn serve<C: Code>(&mut self, i: usize, node: &mut Node)
        requires there { i < C.Code.meaning.n }
        requires waits { is_waiting (tag self.old i) ≡ true }
        ensures node { node_of C.Code.meaning node.new ≡ served C.Code.meaning i (request_of self.old.request) (node_of C.Code.meaning node.old) }
        ensures request { self.new.request ≡ self.old.request }
        ensures mails { mails_of C.Code.meaning self.new ≡ upd (mails_of C.Code.meaning self.old) i (answered (answers_with (request_of self.old.request) (node_of C.Code.meaning node.old))) }
        ensures fetched { got self.new.answers ≡ got self.old.answers }
        ensures answers { answer C.Code.meaning self.new.answers ≡ answer C.Code.meaning self.old.answers }
    {
        match self.request.round {
            Round::Look => {
                self.answers.show(i, node);
                self.mails[i] = Mail::Looked;
            }
            Round::Store => {
                self.request.carry_out::<C>(i, node);
                self.mails[i] = Mail::Stored;
            }
            Round::Settle => {
                self.request.carry_out::<C>(i, node);
                self.mails[i] = Mail::Settled;
            }
        }
    }
}
