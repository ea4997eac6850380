//! Forms of bytes: how bytes are read, with the first fault, how a value is spelled, and which
//! values have a spelling (definitions in specs/, their laws in proofs/); and the readers and
//! writers of single fields.
#![tactic(auto)]

pub mod fault;
pub mod reading;
pub mod writing;

pub use fault::{Field, FormError, FormFault, ImageFault, fault_of};
