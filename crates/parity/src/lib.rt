//! Codes that spread a record by sums of its rows, among them the double parity of RAID 6.
#![tactic(auto)]

pub mod double_parity;
pub mod factors;
pub mod rows;

pub use double_parity::{DoubleParity, P6};
pub use factors::{Factors, RowCode};
