//! The text of what a record's lines of direct memory access did: where each one wrote, or why it was
//! dropped (Intel VT-d, legacy mode).
#![tactic(auto)]

mod loss;
mod report;
mod steps;
mod texts;
mod told;

pub use loss::Loss;
pub use report::lines_text;
pub use told::told_lines;
