//! The scheduling plan, by numbers.
use muen_num::Seq;

/// A scheduling group.
#[derive(Clone, Copy, Debug, PartialEq, Eq)]
pub struct GroupPart {
    /// The logical CPU that it is on.
    pub cpu: u8,
    /// The number of the subject that is active at the start.
    pub first: u8,
}

/// A minor frame of a CPU (Muen kernel report: minor frames).
#[derive(Clone, Copy, Debug, PartialEq, Eq)]
pub struct Minor {
    /// The number of the scheduling group that has the CPU.
    pub group: u8,
    /// For how many ticks.
    pub ticks: u32,
}

/// A major frame (Muen kernel report: major frames).
#[derive(Debug, PartialEq, Eq, Drop)]
pub struct Major {
    /// How many ticks it has, on each CPU.
    pub ticks: u32,
    /// The minor frames of each CPU, by the CPU's number, in order.
    pub cpus: Seq<Seq<Minor>>,
}

/// The scheduling plan: major frames, again and again in this order.
#[derive(Debug, Drop)]
pub struct Plan {
    pub groups: Seq<GroupPart>,
    pub majors: Seq<Major>,
}
