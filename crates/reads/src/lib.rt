//! The answers of a client's round, and what they rebuild.
//!
//! `Answers` keeps for each node what it showed last, and the nodes fetched in the round as the one bits of a byte.
//! At the close of a round it gives the highest floor, the highest count, and the record under the highest readable stamp.
#![tactic(auto)]

pub mod readable;
pub mod rounds;

pub use readable::Found;
pub use rounds::Answers;
