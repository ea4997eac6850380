//! The device record of a run: what the devices of a system do in which tick, in which order the
//! CPUs take their turns, and how many ticks the run has. It is read from its text exactly, with all
//! its faults.
#![tactic(auto)]

pub mod devices;
pub mod fault;
mod line;
mod made;
mod number;
mod reading;
pub mod record;
mod resolving;
mod words;

pub use devices::{Devices, RecordDevice, RecordIrq, RecordMemory};
pub use fault::{LineWant, RecordFault};
pub use reading::read;
pub use record::{INPUT_MOST, Input, Record, TickInput, TickOrder};
