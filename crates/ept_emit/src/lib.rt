//! Emits the EPT tables that map windows (Intel SDM volume 3, "VMX Support for Address Translation"):
//! a walk over the tables leads each guest address where its window does. How many pages the tables of
//! windows take is counted from the guest addresses of these alone.
#![tactic(auto)]

mod count;
mod entries;
mod search;
mod tables;
mod window;

pub use count::pages;
pub use policy_types::{Caching, Rights};
pub use tables::{emit, eptp, write_tables};
pub use window::{GuestRange, Leaf, Window};
