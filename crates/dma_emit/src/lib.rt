//! The tables by which the devices of a policy access memory (Intel VT-d, legacy mode): a device that
//! stands in a domain reaches the regions of the domain's windows, and no other device reaches any.
#![tactic(auto)]

mod base;
mod device_list;
mod devices;
mod domains;
mod emitted;
mod entries;
mod layout;
mod pages;
mod tables;
mod windows;

pub use devices::DomainDevice;
pub use domains::{Domains, domains_of};
pub use emitted::emit;
pub use region_alloc::Placed;
