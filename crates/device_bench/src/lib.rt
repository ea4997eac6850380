//! The devices of a run: what they do in each tick, and what their ports hold.
#![tactic(auto)]

mod at_tick;
mod bench;
mod effect;

pub use bench::Bench;
pub use effect::Effect;
pub use record_text::{Record, TickInput, TickOrder};
