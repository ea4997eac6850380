//! What the subjects of a policy see, by indexes: their windows, and their ends of channels.
#![tactic(auto)]

mod ends;
mod entries;
mod linked;
mod seen;
mod windows;

pub use linked::Linked;
