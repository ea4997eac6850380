//! The rules on ranges of addresses, over a resolved policy, and the named ranges that they compare:
//! the first two that share an address, and the first that breaks a condition of its own or shares
//! an address with one before it.
#![tactic(auto)]

pub mod addresses;
mod apart;
mod fixed;
mod inside;
mod overlap;
mod shared;
mod windows;

pub use apart::{blocks_apart, device_extents, windows_apart};
pub use fixed::fixed_regions;
pub use inside::count_inside;
pub use overlap::{first_fault, first_overlap};
pub use shared::Apart;
