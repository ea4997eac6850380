//! What an image gives a machine and its kernel.
ghost use Rattle.std.specs.Prelude.{IfOk};
ghost use Rattle.image_load.specs.Loading.{IsLoaded};
ghost use Rattle.image_pack.specs.Parts.{IsParts};
ghost use Rattle.phys_mem.specs.Spans.{AreSpans};

use crate::setup::setup_of;
use image_memory::memory_spans;
use image_pack::{Image, Parts, SpanPart};
use kernel_core::Setup;
use muen_num::{NoMemory, Seq};
use phys_mem::MemorySpan;
use std::alloc::Global;

/// What an image gives a machine.
#[derive(Debug, Drop)]
pub struct Loaded {
    /// How many logical CPUs there are, numbered from 0.
    pub cpus: u8,
    /// What the kernel is told.
    pub setup: Setup,
    /// What memory is made of: its spans, each with what it has at the start. A memory can be started
    /// from them.
    pub memory: Vec<MemorySpan>,
    /// The spans of memory, by their addresses.
    pub spans: Seq<SpanPart>,
}

/// What the image of these parts gives a machine. In memory each span has its bytes, and a device's
/// memory zeros.
///
/// # Errors
/// Memory is refused.
pub fn load(alloc: Global, parts: Parts) -> Result<Loaded, NoMemory>
    ensures loaded { IfOk result (IsLoaded parts) }
    // A memory can be started from its spans.
    ensures apart { IfOk result (λ l. AreSpans l.memory.items) }
    // The parts keep the conditions of an image.
    ensures parts { IsParts parts }
{
    let image = parts.into_image();
    let Image {
        header,
        spans,
        subjects,
        plan,
        devices: _,
        contents,
    } = image;
    let setup = setup_of(alloc, header.tau0, spans.items(), subjects, plan)?;
    let memory = memory_spans(alloc, spans.items(), contents)?;
    Ok(Loaded {
        cpus: header.cpus,
        setup,
        memory,
        spans,
    })
}
