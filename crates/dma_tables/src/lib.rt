//! Tables for direct memory access: their file, the walk of them, and a record with the writes that
//! they allow (Intel VT-d, legacy mode).
//!
//! The file's format is stated once, as a form of bytes (specs/DmaFile.antt); the walk over the
//! file's pages in the terms of VT-d (specs/DmaWalk.antt); what a device's line of a record writes
//! over whole lists (specs/Lowered.antt).
#![tactic(auto)]

mod fault;
mod file;
mod lowering;
mod reading;
mod tables;
mod walk;
mod writing;

pub use binary_form::{Field, ImageFault};
pub use device_bench::Effect;
pub use fault::dma_fault_pieces;
pub use file::{DmaDevice, DmaFile, MOST_DMA_PAGES};
pub use lowering::{lower, lowered_records};
pub use record_text::Input;
pub use tables::{DmaTables, conditions, first_fault, one_to_one, pack, tables_are_bytes, unpack};
