//! What the spans of an image hold.
ghost use Rattle.std.specs.Prelude.{◌≡◌, ◌++◌, [], flat_map, map, slice_index_or, slice_set, IfOk, OnOk};
ghost use Rattle.std.specs.List.{All};
ghost use Rattle.image_pack.specs.Form.{IsBytes};
ghost use Rattle.image_emit.specs.Made.{kernel_bytes};
ghost use Rattle.image_pack.specs.SpanConditions.{HaveDifferentNumbers};

use image_pack::SpanPart;
use muen_num::{NoMemory, Seq};
use std::alloc::{AllocError, Global};
use std::mem;
use subject_emit::SubjectPages;

// The pages of a subject, behind the others, in the order of the kernel's regions.
fn push_pages(bytes: &mut Vec<Seq<u8>>, pages: SubjectPages) -> Result<(), AllocError>
    ensures { OnOk result (bytes.new.items ≡ bytes.old.items ++ kernel_bytes pages) }
{
    let SubjectPages {
        state,
        tables,
        ports,
        msrs,
        area,
    } = pages;
    bytes.push(state)?;
    bytes.push(tables)?;
    bytes.push(ports)?;
    bytes.push(msrs)?;
    bytes.push(area)?;
    Ok(())
}

/// What the regions hold, by number: those of the policy, then the kernel's for each subject.
pub(crate) fn region_bytes(
    things: Seq<Seq<u8>>,
    pages: Seq<SubjectPages>,
) -> Result<Vec<Seq<u8>>, NoMemory>
    ensures { IfOk result (λ v. v.items ≡ things ++ flat_map kernel_bytes pages) }
{
    let mut bytes = things.into_vec();
    for of_subject in pages.into_vec() {
        push_pages(&mut bytes, of_subject)?;
    }
    Ok(bytes)
}

// What the region of this number holds, which is taken away; nothing, where there is none.
fn take(alloc: Global, bytes: &mut Vec<Seq<u8>>, number: u16) -> Vec<u8>
    ensures taken { result.items ≡ slice_index_or bytes.old.items number [] }
    ensures rest { bytes.new.items ≡ slice_set bytes.old.items number [] }
    ensures all_bytes { IsBytes result.items }
{
    let at = usize::from(number);
    if at >= bytes.len() {
        return Vec::new(alloc);
    }
    mem::replace(&mut bytes[at], Seq::new(alloc)).into_vec()
}

/// What the spans hold, in their order, of what the regions hold by number. Each number is one span's.
pub(crate) fn contents(
    alloc: Global,
    spans: &[SpanPart],
    bytes: Vec<Seq<u8>>,
) -> Result<Seq<Seq<u8>>, NoMemory>
    requires { HaveDifferentNumbers spans.now }
    ensures held { IfOk result (λ held. held ≡ map (λ s. slice_index_or bytes.items s.number []) spans.now) }
    ensures all_bytes { IfOk result (λ held. All IsBytes held) }
{
    let mut bytes = bytes;
    let mut held = Seq::new(alloc);
    for span in spans {
        held.push(Seq::of(take(alloc, &mut bytes, span.number)))?;
    }
    Ok(held)
}
