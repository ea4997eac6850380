//! What the kernel keeps for each subject of a placed policy: its state page, its EPT tables, its I/O
//! and MSR bitmaps and its MSR area.
#![tactic(auto)]

mod bitmaps;
mod mapped;
mod subject_pages;
mod tables;

pub use subject_pages::{SubjectPages, pages};
pub use tables::tables_at;
