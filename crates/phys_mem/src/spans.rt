//! Spans of memory.
use muen_num::Seq;

/// A part of memory that is made of whole pages, and what it has at first.
#[derive(Debug, Drop)]
pub struct MemorySpan {
    /// The physical address of its first byte.
    pub address: u64,
    pub bytes: Seq<u8>,
}
