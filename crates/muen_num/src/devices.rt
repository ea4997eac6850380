//! What tables of devices say by numbers.

/// A range of I/O ports, both ends in it.
#[derive(Clone, Copy, Debug, PartialEq, Eq)]
pub struct PortSpan {
    /// The first port.
    pub start: u16,
    /// The last port.
    pub end: u16,
}

/// Whom an interrupt reaches.
#[derive(Clone, Copy, Debug, PartialEq, Eq)]
pub struct IrqTarget {
    /// The number of the subject.
    pub subject: u8,
    /// The interrupt vector there, 32 to 255.
    pub vector: u8,
}
