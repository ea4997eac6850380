//! Regions that are placed.

/// Where a region is placed: its number, and the bytes that it takes.
#[derive(Clone, Copy)]
pub(crate) struct Spot {
    pub number: usize,
    pub address: u64,
    /// In bytes.
    pub size: u64,
}
