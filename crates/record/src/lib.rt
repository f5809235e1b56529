//! The parameter record of a bus segment: a parameter number, a unit, a name and a value that
//! travels as a number and a decimal exponent.
//!
//! Every `Record` keeps the ranges of its parts, because the types of the parts do: whoever holds a
//! record never tests them again.
//!
//! ```text
//! let setpoint = Record::new(7, 'b', -1, b"oven            ", 50)?; // 5.0 bar
//! let bytes = setpoint.to_bytes();                                 // 24 bytes
//! ```
#![tactic(auto)]

pub mod fields;
pub mod layout;
pub mod making;
pub mod refusals;
pub mod units;
pub mod values;

pub use fields::{Exponent, Name, Number, Record};
pub use refusals::RecordError;
pub use units::Unit;
