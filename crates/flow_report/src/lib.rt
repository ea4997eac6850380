//! On whom each subject of a policy can depend, and the text that tells it.
#![tactic(auto)]

mod contacts;
mod sets;
mod text;

pub use sets::{FlowSets, direct_flows, flows, marks_after};
pub use text::{flow_text, marks_at, put_lines};
