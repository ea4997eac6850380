//! The scheduling plan of a policy.
//!
//! A lawful policy's groups and frames, with each group, subject and CPU by its number.
#![tactic(auto)]

mod emit;
mod frames;
mod groups;

pub use emit::plan;
