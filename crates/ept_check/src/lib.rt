//! Whether EPT tables in a memory lead each subject's accesses where its windows do, and nowhere else
//! (Intel SDM volume 3, the extended page table mechanism), however the tables point at one another:
//! each is entered once.
#![tactic(auto)]

mod compare;
mod entering;
mod entries;
mod entry_reads;
mod looked;
mod memory_entries;
mod types;
mod windows;

pub use entering::check;
pub use entry_reads::Entries;
pub use ept_emit::{Leaf, Window};
pub use memory_entries::MemoryEntries;
pub use types::{FaultKind, SubjectTables, TableFault};
