//! What is wrong with tables for direct memory access.
use muen_num::Name;

/// What is wrong at an address of a source, in the order of the tests.
#[derive(Clone, Copy, Debug)]
pub enum FaultKind {
    /// The walk comes to a table that isn't one of the file's pages, or some kind of access comes out of
    /// the image's memory.
    Outside,
    /// The walk comes to a table to which it, or the walk for an earlier address or source, comes on
    /// another path.
    Twice,
    /// Some kind of access comes to an address of the image's memory that isn't declared.
    Leak,
    /// Some kind of access comes to no address where one is declared.
    Lacks,
}

/// The first fault of tables, at a source of requests and one of its addresses.
#[derive(Clone, Copy, Debug)]
pub struct TableFault {
    pub kind: FaultKind,
    /// The number of the bus.
    pub bus: u8,
    /// Eight times the number of the device on the bus, plus that of its function (PCI).
    pub devfn: u8,
    /// The address by which the source accesses memory.
    pub addr: u64,
}

/// Why tables don't fit a policy and an image for it.
#[derive(Clone, Copy, Debug)]
pub enum DmaFault {
    /// The file lists this device at a source where the policy doesn't have it, or doesn't list it though
    /// it stands in a domain.
    Listing { device: Name },
    /// The tables have this fault.
    Tables { fault: TableFault },
}
