//! The source policy of a system, element by element, the rights and memory types that it grants,
//! and why a policy is refused.
#![tactic(auto)]

pub mod refusal;
mod refusal_text;
mod resources;
pub mod rights;
pub mod source;

pub use refusal::{Fault, Place, Refusal, Want};
pub use resources::{MsrGrant, PortRange};
pub use rights::{Caching, MsrRights, Rights, Role};
pub use source::Source;
