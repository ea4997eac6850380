//! Things: what has memory by the policy, by number, with what is declared of each.
use muen_num::Tag;
use policy_types::Caching;

/// Where a region of memory comes from.
#[derive(Clone, Copy, Debug, PartialEq, Eq)]
pub enum RegionKind {
    /// The policy's memory.
    Own,
    /// A channel.
    Channel,
    /// A subject's component brings it along.
    Provided,
    /// A device's memory.
    Device,
    /// The kernel has it for a subject.
    Kernel,
}

/// A region of physical memory.
#[derive(Clone, Copy, Debug)]
pub struct Region {
    /// Its printed name.
    pub tag: Tag,
    pub kind: RegionKind,
    /// In bytes.
    pub size: u64,
    /// Its address is a multiple of this.
    pub alignment: u64,
    /// Where it has to be, if anywhere.
    pub fixed: Option<u64>,
}

/// Which content of the policy a thing has at the start.
#[derive(Clone, Copy, Debug)]
pub enum ContentIndex {
    /// None: it has zeros.
    Zeros,
    /// That of the region of memory at an index.
    Memory(usize),
    /// That of what a component provides: the component's index, and the index among what it provides.
    Provided(usize, usize),
}

/// What a window shows, by number.
#[derive(Clone, Copy, Debug)]
pub enum ThingIndex {
    /// The thing of this number.
    Declared(usize),
    /// The state page of the subject at an index.
    State(usize),
}

/// A thing: what has memory by the policy, other than a state page.
#[derive(Clone, Copy, Debug)]
pub struct Thing {
    /// Its printed name.
    pub tag: Tag,
    pub kind: RegionKind,
    /// In bytes.
    pub size: u64,
    /// Its address is a multiple of this.
    pub alignment: u64,
    /// Where it has to be, if anywhere.
    pub fixed: Option<u64>,
    pub caching: Caching,
    pub content: ContentIndex,
}
