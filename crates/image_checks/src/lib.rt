//! The conditions of a sound image that ask for no tables, each as a test: the spans of the policy's
//! things, what the kernel keeps for each subject, and the plan with its events.
#![tactic(auto)]

mod areas;
mod bitmaps;
mod contents;
mod devices;
mod events;
mod own_pages;
mod plan;
mod plan_owner;
mod span_pages;
mod spans;
mod states;

pub use areas::first_by_area;
pub use bitmaps::first_by_bitmaps;
pub use contents::{contents_fault, thing_indexes};
pub use own_pages::first_by_own_pages;
pub use plan_owner::{PlanOwner, plan_fault, plan_faults_tell};
pub use states::first_by_state;
