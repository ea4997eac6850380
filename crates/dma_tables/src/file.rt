//! What a file of tables for direct memory access says.
use muen_num::{Name, Seq};

/// How many pages of 4,096 bytes a file has at most; it has one at least.
pub const MOST_DMA_PAGES: u64 = 16_384;

/// The eight bytes that a file begins with.
pub(crate) const MARK: &[u8; 8] = b"MUENDMA1";

/// A device that tables stand for.
#[derive(Clone, Copy, Debug)]
pub struct DmaDevice {
    pub name: Name,
    /// The number of its bus.
    pub bus: u8,
    /// Eight times its number on the bus, plus that of its function (PCI).
    pub devfn: u8,
}

/// What a file says, as it stands; `DmaTables` knows that it keeps the conditions of one.
#[derive(Debug, Drop)]
pub struct DmaFile {
    /// The physical address of the first byte of the pages, a multiple of 4,096.
    pub base: u64,
    /// The bytes of the pages, 4,096 of each. The first page has the root table.
    pub pages: Seq<u8>,
    /// The devices, whose names differ, at most 32.
    pub devices: Seq<DmaDevice>,
}
