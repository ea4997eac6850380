//! Windows at the addresses of an image.
use policy_lawful::Rights;

/// Addresses of a source, and where they lead.
#[derive(Clone, Copy, PartialEq, Eq, Debug)]
pub(crate) struct DmaWindow {
    /// The first of the addresses.
    pub(crate) guest: u64,
    /// How many bytes there are.
    pub(crate) size: u64,
    /// Where the first byte lies in memory.
    pub(crate) address: u64,
    pub(crate) rights: Rights,
}
