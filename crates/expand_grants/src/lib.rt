//! What a lawful policy grants to its subjects, by indexes: the windows of each subject, its ports and
//! MSRs, the events that it raises; and where the interrupts of devices go.
#![tactic(auto)]

mod append;
mod events;
mod expand;
mod granted;
mod interrupts;
mod msrs;
mod ports;
mod reached;
mod windows;

pub use expand::{grants, routes};
pub use granted::{EventEntry, GrantedWindow, Grants, Route, Way};
