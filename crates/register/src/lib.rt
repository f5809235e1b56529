//! The spread register of a bus segment: what its nodes, mailboxes and clients do, what it promises, and the proof.
//!
//! The definitions stand in `specs/`: stamps, nodes, what holdings rebuild, the calls, the history of a list of calls, the promises.
//! The functions here give the numbers that rounds and reads go by, and their contracts say what rests on these numbers.
#![tactic(auto)]

ghost use Rattle.std.specs.Prelude.{◌≡◌, ◌-◌, ◌≤◌, length};
ghost use Rattle.register.specs.Promises.{Safe, EveryCodeIsSafe, MeetsOnlyRecords};
ghost use Rattle.register.specs.Progress.{Progress};
ghost use Rattle.register.specs.Example.{Worked, calls};

use code::Code;

// All but f of n nodes. A function of its own, so that an edit of it loses a fact here.
fn all_but(f: usize, n: usize) -> usize
    requires { f ≤ n }
    ensures { result ≡ n - f }
{
    n - f
}

/// How many answers close a round.
/// Going by that number, every list of calls keeps the four promises: the writes stand in one order, reads are regular,
/// what so many nodes hold rebuilds a record that no ended write outdates, and no node holds more bytes than it may.
pub fn quorum<C: Code>() -> usize
    ensures count { result ≡ C.Code.meaning.n - C.Code.meaning.f }
    ensures safe { Safe C.Code.meaning }
{
    all_but(C::F, C::N)
}

/// How many pieces under one stamp are enough to read it.
/// After every list of calls, so many pieces under one stamp join to bytes in which a record lies, and one lies in every whole record held.
pub fn readable_from<C: Code>() -> usize
    ensures count { result ≡ C.Code.meaning.k }
    ensures records { MeetsOnlyRecords C.Code.meaning }
{
    C::K
}

/// How many rounds a write takes: Look, Store and Settle.
/// So many rounds in which n - f nodes take part end every write, whatever the other clients do meanwhile.
pub fn write_rounds<C: Code>() -> usize
    ensures count { result ≡ 3 }
    ensures ends { Progress C.Code.meaning }
{
    3
}

/// The most bytes of records that a node ever holds, whatever the code.
/// This is one of the promises that every lawful code keeps.
pub fn most_bytes() -> usize
    ensures count { result ≡ 48 }
    ensures every { EveryCodeIsSafe }
{
    48
}

/// How many calls the worked example has: on three copies, a read that finds the first record and a write that ends.
#[tactic(auto, using(crate::proofs::Run::worked))]
pub fn example_length() -> usize
    ensures count { result ≡ length calls }
    ensures worked { Worked }
{
    22
}
