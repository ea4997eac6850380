//! The tables to which a walk comes, and the paths to them.

/// The tables to which a walk comes, by their pages.
#[derive(Clone, Copy, Debug)]
pub(crate) struct Path {
    pub(crate) root: u64,
    pub(crate) context: Option<u64>,
    /// The highest table of the second level, and those below it.
    pub(crate) level_3: Option<u64>,
    pub(crate) level_2: Option<u64>,
    pub(crate) level_1: Option<u64>,
    pub(crate) level_0: Option<u64>,
}

/// The path to a table.
#[derive(Clone, Copy, PartialEq, Eq, Debug)]
pub(crate) struct Way {
    /// How many steps below the root table it is.
    pub(crate) depth: u32,
    /// Of a second-level table, the page of the highest table above it.
    pub(crate) highest: u64,
    /// Of a context table its bus; of a second-level table the part of the addresses that it covers.
    pub(crate) part: u64,
}
