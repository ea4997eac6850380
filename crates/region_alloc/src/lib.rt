//! The addresses of a policy's regions in its memory blocks.
#![tactic(auto)]

mod allocate;
mod gaps;
mod placed;
mod spot;
mod turns;

pub use allocate::place;
pub use placed::Placed;
