//! The rules on events, calls, vectors and monitors, over a resolved policy.
#![tactic(auto)]

mod directions;
mod events;
mod hypercalls;
mod interrupts;
mod listings;
mod marks;
mod monitoring;
mod numbers;

pub use directions::modes;
pub use events::sourced;
pub use hypercalls::calls;
pub use interrupts::vectors;
pub use monitoring::monitors;
