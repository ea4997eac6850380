//! Events and handovers between subjects: which vectors are pending for each subject, and who is
//! active in each scheduling group.
#![tactic(auto)]

mod router;
mod vectors;

pub use router::Router;
