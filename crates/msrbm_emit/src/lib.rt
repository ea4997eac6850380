//! The MSR bitmap of a subject and its area of MSRs (Intel SDM volume 3, MSR-bitmap address, and
//! the format of an MSR entry).
#![tactic(auto)]

mod area;
mod bitmap;

pub use area::emit_area;
pub use bitmap::emit;
pub use policy_types::MsrGrant;
