//! The rules on devices: what is granted of them, their I/O ports, MSRs, and the domains that
//! confine them. Each is a call that answers the first offence of a resolved policy.
#![tactic(auto)]

mod bus;
mod declared;
mod domains;
mod grants;
mod listed;
mod msrs;
mod ports;
mod regions;
mod resource;
mod windows;

pub use domains::domain_devices;
pub use grants::granted_once;
pub use msrs::msr_ranges;
pub use ports::port_ranges;
pub use regions::regions_in_one_domain;
pub use windows::domain_windows;
