//! All regions of a lawful policy by number, the kernel's with them, and its grants.
#![tactic(auto)]

mod expanded;
mod kernel;

pub use expand_grants::{GrantedWindow, Grants};
pub use expanded::{Expanded, expand};
pub use kernel::KernelRegion;
pub use policy_lawful::thing::{Region, RegionKind};
