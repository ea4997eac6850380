//! The kernel: whose turn it is, and what happens in it (this project's own, after Muen's kernel).
//!
//! It knows its system by numbers (`Setup`); tables, bitmaps, areas and state pages are bytes of
//! memory. After `Kernel::start` no call refuses anything, and none takes memory.
#![tactic(auto)]

mod exit;
mod kernel;
mod on_cpus;
mod setup;
mod slots;
mod tick;
mod turn;

pub use kernel::Kernel;
pub use setup::Setup;
