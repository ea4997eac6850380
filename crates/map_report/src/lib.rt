//! The text of a policy's map: where its regions lie, and what each subject sees of them.
#![tactic(auto)]

mod lines;
mod report;
mod shown;

pub use report::map_text;
