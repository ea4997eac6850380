//! Physical memory: pages by their numbers, with loads and stores of the lowest byte first.
//!
//! Memory isn't everywhere: a page that no region has isn't there, and nothing is read or written
//! in it. Both memories are made of spans of pages: in `FrameMem` a page is found by two reads of
//! tables, however many pages there are, in `RegionMem`, which no program runs, by a binary search.
#![tactic(auto)]

mod frame_mem;
mod frames;
mod index_tables;
mod little_endian;
mod memory;
mod region_mem;
mod spans;

pub use frame_mem::FrameMem;
pub use memory::{PAGE_BYTES, PhysMem};
pub use region_mem::{RegionMem, index_of};
pub use spans::MemorySpan;
