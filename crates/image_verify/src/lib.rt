//! The verdict on an image, whoever made it: whether it is sound for a policy and its files, or what is
//! the first that makes it unsound.
#![tactic(auto)]

mod fault;
mod fault_text;
mod pages;
mod verdict;
mod windows;

pub use fault::{Condition, Fault, Owner};
pub use fault_text::AddressDigits;
pub use pages::table_pages;
pub use verdict::{verdicts_tell, verify};
pub use windows::subject_tables;
