//! Views, which are windows by the indexes of what they show, and ends of channels.
use muen_num::{Name, Seq};
use policy_types::{Rights, Role};

/// What a view shows, by its index in the policy.
#[derive(Clone, Copy, Debug)]
pub enum Shown {
    /// A region of memory.
    Memory(usize),
    /// A channel.
    Channel(usize),
    /// A region that the subject's component provides, by its index among those.
    Provided(usize),
    /// Memory of a device: the device's index, and the index among its memory.
    Device(usize, usize),
    /// The state page of a subject.
    State(usize),
}

/// A window of a subject: `size` bytes from the guest address `guest` on show the whole of a thing.
#[derive(Clone, Copy, Debug)]
pub struct View {
    /// The name of what it shows; a provided region's is its logical name, a state page's its
    /// subject's.
    pub name: Name,
    pub guest: u64,
    /// In bytes.
    pub size: u64,
    pub rights: Rights,
    pub shows: Shown,
}

/// A subject's end of a channel, its own or one of its component.
#[derive(Clone, Copy, Debug)]
pub struct IndexedEnd {
    /// The channel's index.
    pub channel: usize,
    pub role: Role,
    pub call: Option<u64>,
    pub vector: Option<u64>,
}

/// What a subject sees.
#[derive(Debug, Drop)]
pub struct Seen {
    /// Its windows: its mappings, its channels, its devices' memory, those of its component, the
    /// state pages that it monitors.
    pub views: Seq<View>,
    /// Its ends of channels, its own and then those of its component.
    pub channel_ends: Seq<IndexedEnd>,
}
