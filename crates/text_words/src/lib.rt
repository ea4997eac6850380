//! The lines of a text, its parts at a byte, and the numbers that words spell.
#![tactic(auto)]

mod groups;
pub mod number;
mod parts;

pub use groups::{based, grouped};
pub use number::{NumberError, decimal};
pub use parts::{cut, first_line};
