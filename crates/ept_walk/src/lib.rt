//! The walk of EPT tables in memory (Intel SDM volume 3, VMX support for address translation).
#![tactic(auto)]

mod cached;
mod plain;
mod trace;
mod translation;

pub use cached::CachedWalk;
pub use phys_mem::PhysMem;
pub use plain::PlainWalk;
pub use translation::Translate;
