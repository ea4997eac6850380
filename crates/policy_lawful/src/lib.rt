//! The rules that a policy must keep; policies whose references are resolved, with what their
//! subjects see by indexes; and those that keep every rule.
#![tactic(auto)]

pub mod counts;
pub mod frame_names;
pub mod lawful;
pub mod name_hash;
pub mod name_set;
pub mod named;
pub mod offence;
pub mod resolved;
pub mod thing;
mod things;
pub mod view;

pub use counts::Counts;
pub use lawful::Lawful;
pub use name_hash::{NameDigest, NameHash};
pub use name_set::NameSet;
pub use named::Named;
pub use offence::{Extent, Offence};
pub use policy_types::{
    Caching, MsrGrant, MsrRights, PortRange, Refusal, Rights, Role, Source, source,
};
pub use resolved::{Elements, Resolved};
pub use thing::{ContentIndex, Thing, ThingIndex};
pub use view::{IndexedEnd, Seen, Shown, View};
