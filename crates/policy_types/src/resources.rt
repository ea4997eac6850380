//! Ranges of ports and MSRs that are granted.

/// A range of I/O ports, both ends included.
#[derive(Clone, Copy, Debug)]
pub struct PortRange {
    pub start: u16,
    pub end: u16,
}

/// A range of MSRs, both ends included, and what a subject may do with them.
#[derive(Clone, Copy, Debug)]
pub struct MsrGrant {
    pub start: u32,
    pub end: u32,
    pub read: bool,
    pub write: bool,
}
