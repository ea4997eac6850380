//! The I/O bitmaps of a subject: an access of ports doesn't leave it where each port is granted
//! (Intel SDM volume 3, I/O-bitmap addresses).
#![tactic(auto)]

mod bitmaps;

pub use bitmaps::emit;
pub use policy_types::PortRange;
