//! A segment: n nodes that keep one parameter record between them, and the clients that write and read it.
//!
//! `Segment::lay_out` makes one; every other call names a client by its number. Requests reach the nodes by `take`, in any order,
//! and their answers come back by `fetch`. What each call does is the step of that name in the register's definitions, and from
//! what `lay_out` gives every list of calls keeps the register's promises.
//! A segment lies in one struct of fixed size. Nothing here uses a heap.
#![tactic(auto)]

mod calls;
pub mod entries;
mod laying;
pub mod posts;
pub mod refusals;
pub mod state;
pub mod tables;

pub use refusals::{Ending, Refusal};
pub use state::{Fetched, Reading, Round, Segment, Sight, Waiting};
