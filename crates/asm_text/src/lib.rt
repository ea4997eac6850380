//! Guests in assembly: the bytes that a source says.
#![tactic(auto)]

mod assembling;
mod fault;
mod layout;
mod meaning;
mod part;
mod reading;
mod statement;
mod tokens;
mod words;

pub use assembling::assemble;
pub use fault::{LineError, SourceFault, Want};
pub use part::{Part, parts_of};
pub use words::number_in;
