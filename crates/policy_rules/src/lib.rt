//! The rules that a policy must keep beyond its names and references.
#![tactic(auto)]

pub mod cpus;
pub mod groups;
mod keys;
pub mod limits;
pub mod major_frames;
mod rules;
mod tau0;
pub mod writers;

pub use rules::check;
