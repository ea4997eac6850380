//! The state of a subject, and its state page: how the kernel keeps that state in memory (this
//! project's own machine).
#![tactic(auto)]

mod page;
mod state;

pub use page::{read, write};
pub use state::SubjectState;
