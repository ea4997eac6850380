//! Windows as tables map them.
use policy_types::{Caching, Rights};

/// The greatest page that a window may be mapped by.
#[derive(Clone, Copy, Debug)]
pub enum Leaf {
    /// 4 KiB.
    Small,
    /// 2 MiB.
    Large,
    /// 1 GiB.
    Huge,
}

/// The guest addresses of a window: `size` bytes from `guest` on.
#[derive(Clone, Copy, Debug)]
pub struct GuestRange {
    pub guest: u64,
    /// In bytes.
    pub size: u64,
}

/// A window: `size` bytes from the guest address `guest` on are those from the physical address
/// `address` on.
#[derive(Clone, Copy, Debug)]
pub struct Window {
    pub guest: u64,
    /// In bytes.
    pub size: u64,
    pub address: u64,
    pub rights: Rights,
    pub caching: Caching,
    pub leaf: Leaf,
}
