//! Why a call is refused, and why an operation ended without what it was for.
ghost use Rattle.std.specs.Prelude.{◌≡◌, Some};
ghost use Rattle.segment.specs.Refusals.{refusal, ending, sentence, ending_sentence};

use std::error::Error;
use std::fmt;

/// Why a call of a segment is refused. A refused call changes nothing.
#[derive(Clone, Copy, PartialEq, Eq, Debug)]
pub enum Refusal {
    /// The clients are not 1 to 8.
    Clients = 6,
    /// The first count is above 999,999,999.
    Count = 7,
    /// The client is not laid out.
    NoClient = 8,
    /// The node is not in the segment.
    NoNode = 9,
    /// The client is on already.
    AlreadyOn = 10,
    /// The client is off.
    SignedOff = 11,
    /// The client has an operation open.
    OperationOpen = 12,
    /// The rounds are not 1 to 250.
    Rounds = 13,
    /// No request waits in that mailbox.
    NothingThere = 14,
    /// The client has no operation open.
    NothingOpen = 15,
    /// There is no answer in that mailbox.
    NoAnswer = 16,
    /// No request waits anywhere.
    NothingWaits = 19,
}

impl Refusal {
    /// The number by which the refusal is told.
    pub fn number(self) -> u8
        ensures { result ≡ refusal self }
    {
        self as u8
    }
}

/// What was refused, in a few words.
impl fmt::Display for Refusal {
    ghost output = { λ e. Some (sentence e) };

    fn fmt<W: fmt::Write>(&self, f: &mut fmt::Formatter<W>) -> fmt::Result {
        f.write_str(match self {
            Refusal::Clients => "there are not 1 to 8 clients",
            Refusal::Count => "the first count is above 999,999,999",
            Refusal::NoClient => "no such client",
            Refusal::NoNode => "no such node",
            Refusal::AlreadyOn => "the client is on already",
            Refusal::SignedOff => "the client is off",
            Refusal::OperationOpen => "the client has an operation open",
            Refusal::Rounds => "the rounds are not 1 to 250",
            Refusal::NothingThere => "no request waits in that mailbox",
            Refusal::NothingOpen => "the client has no operation open",
            Refusal::NoAnswer => "there is no answer in that mailbox",
            Refusal::NothingWaits => "no request waits anywhere",
        })
    }
}

impl Error for Refusal {}

/// How an operation ends without what it was for.
#[derive(Clone, Copy, PartialEq, Eq, Debug)]
pub enum Ending {
    /// A write found the highest count in use, so that there is none left for it.
    CountsUsed = 17,
    /// A read found nothing readable in its allowed rounds.
    RoundsUsed = 18,
}

impl Ending {
    /// The number by which the ending is told.
    pub fn number(self) -> u8
        ensures { result ≡ ending self }
    {
        self as u8
    }
}

/// How it ended, in a few words.
impl fmt::Display for Ending {
    ghost output = { λ e. Some (ending_sentence e) };

    fn fmt<W: fmt::Write>(&self, f: &mut fmt::Formatter<W>) -> fmt::Result {
        f.write_str(match self {
            Ending::CountsUsed => "there is no higher count left",
            Ending::RoundsUsed => "nothing readable was found in the allowed rounds",
        })
    }
}
