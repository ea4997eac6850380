//! The verdict on tables for direct memory access (Intel VT-d, legacy mode), whoever made them: whether
//! they lead each source of requests where a policy and an image declare it, or what is the first that is
//! wrong with them.
#![tactic(auto)]

mod again;
mod checking;
mod fault;
mod held;
mod laws;
mod listing;
mod marks;
mod path;
mod pieces;
mod reading;
mod searching;
mod spans;
mod windows;

pub use checking::{check, check_spans};
pub use fault::{DmaFault, FaultKind, TableFault};
pub use laws::verdicts_tell;
pub use listing::listing_fault;
pub use spans::ImageSpans;
