//! The machine: physical memory, and CPUs on which subjects run (Intel SDM volume 3, as this project
//! profiles it).
//!
//! Tables, bitmaps, MSR areas and state pages are bytes of memory, and each access goes by these bytes
//! as they are at that moment: a subject that writes its own tables changes what its next access does.
//! No call refuses anything and none but `Machine::start` takes memory.
#![tactic(auto)]

mod access;
mod bus;
mod control;
mod cpu;
mod effect;
mod machine;
mod msr_file;
mod step;

pub use control::Control;
pub use cpu::{Cpu, Entered};
pub use ept_walk::{PhysMem, Translate};
pub use machine::Machine;
pub use msr_file::MsrFile;
