//! What a kernel is told of an image's system.
ghost use Rattle.std.specs.Prelude.{◌≡◌, IfOk, map, option_map};
ghost use Rattle.image_load.specs.Loaded.{control_of};
ghost use Rattle.image_memory.specs.Memory.{page_of_span, AreLow};

use crate::spans::span_numbered;
use image_pack::{Plan, SpanPart, SubjectPart};
use kernel_core::Setup;
use muen_num::limits::PAGE;
use muen_num::{NoMemory, Seq};
use std::alloc::{AllocError, Global};
use vmx_machine::Control;

// The number of the first page of the span with this number; 0, where there is none.
fn page_of_span(spans: &[SpanPart], number: u16) -> u32
    requires { AreLow spans.now }
    ensures { result ≡ page_of_span spans.now number }
{
    match span_numbered(spans, number) {
        Some(span) => (span.address / PAGE) as u32,
        None => 0,
    }
}

// What a CPU is told of a subject.
fn control_of(spans: &[SpanPart], subject: &SubjectPart) -> Control
    requires { AreLow spans.now }
    ensures { result ≡ control_of spans.now subject.now }
{
    Control {
        state: page_of_span(spans, subject.state),
        eptp: subject.eptp,
        io_bitmaps: page_of_span(spans, subject.iobm),
        msr_bitmap: page_of_span(spans, subject.msrbm),
        msr_area: page_of_span(spans, subject.area),
        msrs: subject.msrs,
    }
}

// What a CPU is told of each subject.
fn controls_of(
    alloc: Global,
    spans: &[SpanPart],
    subjects: &[SubjectPart],
) -> Result<Vec<Control>, AllocError>
    requires { AreLow spans.now }
    ensures { IfOk result (λ v. v.items ≡ map (control_of spans.now) subjects.now) }
{
    subjects
        .iter()
        .map(|subject| control_of(spans, subject))
        .collect(alloc)
}

/// What a kernel is told of a system with these spans, subjects and plan. `tau0` is the number of
/// the span whose first byte chooses the next major frame.
///
/// # Errors
/// Memory is refused.
pub(crate) fn setup_of(
    alloc: Global,
    tau0: Option<u16>,
    spans: &[SpanPart],
    subjects: Seq<SubjectPart>,
    plan: Plan,
) -> Result<Setup, NoMemory>
    requires { AreLow spans.now }
    ensures tau0 { IfOk result (λ s. s.tau0 ≡ option_map (page_of_span spans.now) tau0) }
    ensures subjects { IfOk result (λ s. s.subjects ≡ subjects) }
    ensures controls { IfOk result (λ s. s.controls ≡ map (control_of spans.now) subjects) }
    ensures plan { IfOk result (λ s. s.plan ≡ plan) }
{
    let controls = controls_of(alloc, spans, subjects.items())?;
    Ok(Setup {
        tau0: tau0.map(|number| page_of_span(spans, number)),
        subjects,
        controls: Seq::of(controls),
        plan,
    })
}
