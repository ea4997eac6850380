//! All rules that a policy breaks, told at once.
#![tactic(auto)]

mod broken;
mod rules;

pub use rules::{broken_rules, check_all};
