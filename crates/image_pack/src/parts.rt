//! The parts of an image.
ghost use Rattle.std.specs.Prelude.{◌≡◌, ◌==◌, option_map};
ghost use Rattle.std.specs.List.{find};

use crate::outline::Header;
use frame_clock::Plan;
use muen_num::{EventMode, IrqTarget, Name, PortSpan, Seq, Tag};

/// What a span of memory is.
#[derive(Clone, Copy, Debug)]
pub enum SpanKind {
    /// A memory region of the policy.
    Own,
    /// A channel.
    Channel,
    /// A region that a component provides.
    Provided,
    /// A page or table that the kernel has for a subject.
    Kernel,
    /// A device's memory.
    Device,
}

/// A span of physical memory.
#[derive(Clone, Copy, Debug)]
pub struct SpanPart {
    /// The physical address of its first byte, a multiple of 4,096.
    pub address: u64,
    /// How many pages of 4,096 bytes it has.
    pub pages: u32,
    /// Its number among the spans, by which other parts name it.
    pub number: u16,
    pub kind: SpanKind,
    /// Its printed name.
    pub tag: Tag,
}

/// The span with this number, if there is one.
pub fn span_numbered(spans: &[SpanPart], number: usize) -> Option<&SpanPart>
    ensures { option_map (λ s. s.now) result ≡ find (λ s. s.number == number) spans.now }
{
    spans.iter().find(|span| usize::from(span.number) == number)
}

/// What an event does that a call or a trap of a subject raises.
#[derive(Clone, Copy, Debug, PartialEq, Eq)]
pub struct EventPart {
    pub mode: EventMode,
    /// The number of the subject that it reaches.
    pub target: u8,
    /// The interrupt vector that it has there, 32 to 255. It may lack where the mode is `Switch`.
    pub vector: Option<u8>,
}

/// A subject.
#[derive(Debug, Drop)]
pub struct SubjectPart {
    /// The logical CPU that it runs on.
    pub cpu: u8,
    /// The number of its scheduling group.
    pub group: u8,
    /// How many MSRs its area lists, at most 64.
    pub msrs: u8,
    /// The number of the span with its state page.
    pub state: u16,
    /// The number of the span with its I/O bitmaps A and B, in this order.
    pub iobm: u16,
    /// The number of the span with its MSR bitmap.
    pub msrbm: u16,
    /// The number of the span with its MSR area.
    pub area: u16,
    /// Its extended-page-table pointer (Intel SDM volume 3).
    pub eptp: u64,
    pub name: Name,
    /// What its calls raise, by their numbers, 64 of them.
    pub calls: Seq<Option<EventPart>>,
    /// What its traps raise, by their exit reasons, 64 of them.
    pub traps: Seq<Option<EventPart>>,
}

/// A device's memory.
#[derive(Clone, Copy, Debug)]
pub struct WindowPart {
    /// The number of its span.
    pub span: u16,
}

/// An IRQ of a device.
#[derive(Clone, Copy, Debug, PartialEq, Eq)]
pub struct IrqPart {
    pub name: Name,
    /// `None` where nobody has it.
    pub target: Option<IrqTarget>,
}

/// A device.
#[derive(Debug, Drop)]
pub struct DevicePart {
    pub name: Name,
    pub ports: Seq<PortSpan>,
    pub windows: Seq<WindowPart>,
    pub irqs: Seq<IrqPart>,
}

/// The parts of an image as they stand; `Parts` knows that they keep the conditions of one.
#[derive(Debug, Drop)]
pub struct Image {
    pub header: Header,
    /// The spans, by their addresses.
    pub spans: Seq<SpanPart>,
    /// The subjects, by their numbers.
    pub subjects: Seq<SubjectPart>,
    pub plan: Plan,
    pub devices: Seq<DevicePart>,
    /// The bytes of each span, in the order of the spans; none of a device's memory.
    pub contents: Seq<Seq<u8>>,
}
