//! The events that the subjects of a policy raise, and its devices, as an image has them.
#![tactic(auto)]

mod device_parts;
mod event_tables;

pub use device_parts::devices;
pub use event_tables::{EventTables, tables};
