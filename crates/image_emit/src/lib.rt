//! The image of a placed policy: spans with their bytes, subjects, plan and devices.
#![tactic(auto)]

mod image;
mod span_bytes;
mod subjects;

pub use image::emit;
