//! What makes an image unsound.
use muen_num::Name;

/// A condition of a sound image.
#[derive(Clone, Copy, Debug)]
pub enum Condition {
    /// The spans that aren't the kernel's are the policy's things, with the bytes that they have at the
    /// start.
    Contents,
    /// Walks read tables alone.
    Tables,
    /// The bitmaps of ports and MSRs are those of the grants.
    Bitmaps,
    /// So is the area of MSRs.
    Areas,
    /// The state page is that of the state at the start.
    States,
    /// No two subjects share a span for these.
    OwnPages,
    /// The plan and the events are the policy's.
    Plan,
}

/// Whose a condition is that fails.
#[derive(Clone, Copy, Debug)]
pub enum Owner {
    /// The whole plan's.
    Plan,
    /// That of the region, channel, device or subject of this name.
    Named(Name),
}

/// Why an image isn't sound for a policy and its files.
#[derive(Clone, Copy, Debug)]
pub enum Fault {
    /// This condition fails.
    Fails { condition: Condition, owner: Owner },
    /// The walk for a page of guest addresses reads a table that is read on another path.
    Twice { subject: Name, addr: u64 },
    /// Some kind of access of the page comes to an address to which no window leads it.
    Leak { subject: Name, addr: u64 },
    /// Some kind of access of the page comes to no address, and not as the windows say.
    Lacks { subject: Name, addr: u64 },
}
