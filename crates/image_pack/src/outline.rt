//! What the parts of an image count, and what its later parts refer to.
use crate::parts::SpanPart;
use frame_clock::GroupPart;
use muen_num::Seq;

/// The counts at the front of an image.
#[derive(Clone, Copy, Debug)]
pub struct Header {
    /// How many logical CPUs there are, 1 to 8.
    pub cpus: u8,
    /// How many subjects, 1 to 32.
    pub subjects: u8,
    /// How many scheduling groups, 1 to 32.
    pub groups: u8,
    /// How many major frames, 1 to 16.
    pub majors: u8,
    /// How many devices, at most 32.
    pub devices: u8,
    /// How many spans of memory, at most 1,152.
    pub spans: u16,
    /// The number of the span whose first byte chooses the next major frame, if one does.
    pub tau0: Option<u16>,
}

/// What the later parts of an image refer to: the counts, the spans and the scheduling groups.
#[derive(Debug, Drop)]
pub struct Outline {
    pub header: Header,
    pub spans: Seq<SpanPart>,
    pub groups: Seq<GroupPart>,
}
