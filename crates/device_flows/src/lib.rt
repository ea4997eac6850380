//! On whom each subject of a policy can depend where what devices do counts, and the text that tells it.
#![tactic(auto)]

mod closed;
mod laws;
mod rows;
mod text;
mod touch;

pub use closed::device_flows;
pub use laws::{declared_flows_are_held, device_closures_are_least, every_access_counts};
pub use text::device_flow_text;
