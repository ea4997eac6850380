//! The spans of an image: the regions of a placed policy at their addresses, and its devices' memory.
#![tactic(auto)]

mod by_address;
mod by_number;

pub use by_address::spans;
