//! A node's memory: a floor, a shelf of pieces and a spare, and what the node does with a Store and a Settle.
//!
//! A node holds at most 48 bytes of records: a shelf of 24, cut into k places of w bytes for the code's k and w, and a spare of
//! 24. Stamps and tags stand beside them. Nothing here uses a heap.
//! What a node's memory means, and what each function makes of it, stands in `specs/Views.antt` and in the register's definitions.
#![tactic(auto)]

pub mod nodes;
pub mod parts;
pub mod piece_of;
pub mod pieces;
pub mod shelves;
pub mod spares;
pub mod stamps;

pub use nodes::Node;
pub use parts::Parts;
pub use piece_of::PieceOf;
pub use stamps::{Stamp, Stamped};
