//! Codes that spread a record of 24 bytes over n nodes as n pieces: any k pieces give it back, so that f nodes may be silent.
#![tactic(auto)]

pub mod calls;
pub mod copies;
pub mod interface;

pub use calls::{CodeError, Piece};
pub use copies::{C3, C5};
pub use interface::{Code, pieces_are_enough};
