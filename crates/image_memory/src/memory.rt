//! The memory of an image at the start.
ghost use Rattle.std.specs.Prelude.{◌≡◌, IfOk, map, zip};
ghost use Rattle.image_memory.specs.Memory.{memory_of, memory_span};
ghost use Rattle.phys_mem.specs.Found.{frames_kept};

use image_pack::{Image, Parts, SpanPart};
use muen_num::limits::PAGE;
use muen_num::{NoMemory, Seq};
use phys_mem::{FrameMem, MemorySpan};
use std::alloc::Global;

// A span with what it has at the start.
fn memory_span(alloc: Global, span: &SpanPart, bytes: Seq<u8>) -> Result<MemorySpan, NoMemory>
    ensures { IfOk result (λ s. s ≡ memory_span (span.now, bytes)) }
{
    if !span.kind.is_device() {
        return Ok(MemorySpan {
            address: span.address,
            bytes,
        });
    }
    let count = PAGE * u64::from(span.pages);
    let bytes = Seq::of(vec![in alloc; 0; count as usize]?);
    Ok(MemorySpan {
        address: span.address,
        bytes,
    })
}

/// The spans, each with what it has at the start: its bytes, and a device's memory zeros.
///
/// # Errors
/// Memory is refused.
pub fn memory_spans(
    alloc: Global,
    spans: &[SpanPart],
    contents: Seq<Seq<u8>>,
) -> Result<Vec<MemorySpan>, NoMemory>
    ensures { IfOk result (λ v. v.items ≡ map memory_span (zip spans.now contents)) }
{
    let mut loaded = Vec::with_capacity(alloc, spans.len())?;
    for (span, bytes) in spans.iter().zip(contents.into_vec()) {
        loaded.push(memory_span(alloc, span, bytes)?)?;
    }
    Ok(loaded)
}

/// The memory of the image of these parts at the start.
///
/// # Errors
/// Memory is refused.
pub fn memory_of(alloc: Global, parts: Parts) -> Result<FrameMem, NoMemory>
    ensures { IfOk result (λ m. frames_kept m ≡ memory_of parts) }
{
    let image = parts.into_image();
    let Image {
        header: _,
        spans,
        subjects: _,
        plan: _,
        devices: _,
        contents,
    } = image;
    let memory = memory_spans(alloc, spans.items(), contents)?;
    FrameMem::start(alloc, memory)
}
