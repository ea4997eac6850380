//! The rules on channels and components, over a resolved policy, and who takes part in what, by
//! index: the subjects that raise each event and those that it reaches, and who writes each channel
//! and who reads it.
#![tactic(auto)]

pub mod by_index;
pub mod channel_ends;
mod channels;
mod components;
pub mod parties;

pub use channels::{connected, is_switch};
pub use components::mapped;
