// The final lines of regions and of devices' memories.
ghost use Rattle.std.specs.Prelude.{◌≡◌, ◌+◌, ◌/◌, ◌^◌, ◌<◌, ◌≤◌};
ghost use Rattle.sha2.specs.Sha256.{sha256};
ghost use Rattle.muen_outside.specs.Prints.{Prints};
ghost use Rattle.kernel_core.specs.Machine.{page_bytes_at};
ghost use Rattle.view_text.specs.ViewText.{region_text};
ghost use Rattle.image_load.specs.Memory.{AreLow, IsLow};
ghost use Rattle.muen_run.specs.RunText.{bytes_from, digest_in, numbered_span_text, prints_as, spans_text};

use ept_walk::PhysMem;
use image_pack::{SpanKind, SpanPart, span_numbered};
use muen_num::Tag;
use muen_num::limits::PAGE;
use muen_outside::{BufferedSink, PrintedLine, Sink, SinkFault};
use sha2::{Digest, Sha256};
use view_text::region_line;

// The final line of a region of memory, or of a device's window.
#[derive(Drop)]
struct RegionLine<'a> {
    tag: &'a Tag,
    device: bool,
    digest: [u8; 32],
}

impl PrintedLine for RegionLine<'_> {
    ghost use Rattle.view_text.specs.ViewText.{region_text};

    ghost text = { λ r. region_text r.tag.now r.device r.digest };

    fn write(&self, space: &mut [u8; 256]) -> usize {
        region_line(self.tag, self.device, &self.digest, space)
    }
}

// The bytes of a page. None where it isn't there.
fn bytes_of_page<M: PhysMem>(mem: &M, page: u64) -> &[u8]
    ensures { result.now ≡ page_bytes_at (M.pages mem.now) page }
{
    match mem.page(page) {
        None => &[],
        Some(bytes) => bytes,
    }
}

// The digest of so many pages from this one on.
fn digest_of<M: PhysMem>(mem: &M, first: u64, pages: u32) -> [u8; 32]
    requires { first + pages ≤ 2 ^ 52 }
    ensures { result ≡ sha256 (bytes_from (M.pages mem.now) first pages) }
{
    let mut hasher = Sha256::new();
    for page in 0..pages {
        hasher.update(bytes_of_page(mem, first + u64::from(page)));
    }
    hasher.finalize()
}

// The line of a span.
#[tactic(auto, using(crate::proofs::LowSpans::low_pages))]
fn put_span<S: Sink, M: PhysMem>(
    mem: &M,
    span: &SpanPart,
    device: bool,
    out: &mut BufferedSink<'_, S>,
) -> Result<(), SinkFault>
    requires { IsLow span.now }
    ensures { Prints S.state (region_text span.now.tag device (digest_in (M.pages mem.now) span.now)) out.old out.new result }
{
    out.put_line(&RegionLine {
        tag: &span.tag,
        device,
        digest: digest_of(mem, span.address / PAGE, span.pages),
    })
}

// Whether a span of this kind is printed, as a device's memory or as a region.
fn prints_as(device: bool, kind: SpanKind) -> bool
    ensures { result ≡ prints_as device kind }
{
    match kind {
        SpanKind::Own | SpanKind::Channel | SpanKind::Provided => !device,
        SpanKind::Kernel => false,
        SpanKind::Device => device,
    }
}

// The line of the span with this number, where it is printed.
#[tactic(auto, using(muen_outside::proofs::Buffered::gives))]
fn put_numbered<S: Sink, M: PhysMem>(
    mem: &M,
    spans: &[SpanPart],
    n: usize,
    device: bool,
    out: &mut BufferedSink<'_, S>,
) -> Result<(), SinkFault>
    requires { AreLow spans.now }
    ensures { Prints S.state (numbered_span_text device spans.now (M.pages mem.now) n) out.old out.new result }
{
    match span_numbered(spans, n) {
        None => Ok(()),
        Some(span) => {
            if prints_as(device, span.kind) {
                put_span(mem, span, device, out)
            } else {
                Ok(())
            }
        }
    }
}

/// The lines of all regions, or of all devices' memories, by their numbers.
#[tactic(auto, using(crate::proofs::Numbered::numbered))]
pub(crate) fn put_spans<S: Sink, M: PhysMem>(
    mem: &M,
    spans: &[SpanPart],
    device: bool,
    out: &mut BufferedSink<'_, S>,
) -> Result<(), SinkFault>
    requires { AreLow spans.now }
    ensures { Prints S.state (spans_text device spans.now (M.pages mem.now)) out.old out.new result }
{
    for n in 0..spans.len() {
        put_numbered(mem, spans, n, device, out)?;
    }
    Ok(())
}
