//! The memory that an image gives a machine, at the start.
#![tactic(auto)]

mod laws;
mod memory;

pub use laws::spans_are_in_memory;
pub use memory::{memory_of, memory_spans};
