//! Writes an image, line for line as its form says.
#![tactic(auto, using(binary_form::proofs::Puts::appended), unfolding(binary_form::specs::Form::only, binary_form::specs::Form::field, binary_form::specs::Form::gap, binary_form::specs::Form::done))]

ghost use Rattle.std.specs.Prelude.{◌≡◌, ℕ, ◌++◌, List, OnOk, is_some};
ghost use Rattle.binary_form.specs.Form.{Form, items, each};
ghost use Rattle.image_pack.specs.Codes.{part_code, part_name};
ghost use Rattle.image_pack.specs.Image.{tau0_at, counts, header, title, span, group, events, subject, minor_frame_form, frames, major, range, window_form, irq, device, content, image};
ghost use Rattle.image_pack.specs.declared.outline.Header.{Header};
ghost use Rattle.image_pack.specs.declared.outline.Outline.{Outline};
ghost use Rattle.image_pack.specs.declared.reading.spans.SpansBefore.{SpansBefore};
ghost use Rattle.image_pack.specs.declared.reading.majors.FramesBefore.{FramesBefore};
ghost use Rattle.image_pack.specs.declared.reading.majors.CpuTicks.{CpuTicks};

use crate::codes::{irq_vector_code, mark, part_code, subject_code};
use crate::items::put_items;
use crate::outline::Header;
use crate::parts::{DevicePart, EventPart, Image, IrqPart, SpanPart, SubjectPart, WindowPart};
use binary_form::writing::{
    as_u8, as_u16, put_bytes, put_name, put_tag, put_u8, put_u16, put_u32, put_u64, put_zeros,
};
use frame_clock::{GroupPart, Major, Minor};
use muen_num::{PortSpan, Seq, TagPart};
use std::alloc::AllocError;

#[tactic(auto, using(binary_form::proofs::Puts::appended), unfolding(binary_form::specs::Form::field, binary_form::specs::Form::only, binary_form::specs::Form::gap, binary_form::specs::Form::done, binary_form::specs::Form::either, binary_form::specs::Form::present, binary_form::specs::Form::absent_value, crate::specs::Image::tau0_at))]
fn put_tau0(out: &mut Vec<u8>, tau0: Option<u16>) -> Result<(), AllocError>
    ensures { (spans : ℕ) → OnOk result (out.new.items ≡ out.old.items ++ (tau0_at (is_some tau0) spans).spell tau0) }
{
    match tau0 {
        None => put_zeros(out, 6)?,
        Some(number) => {
            put_u16(out, number)?;
            put_zeros(out, 4)?;
        }
    }
    Ok(())
}

#[tactic(auto, using(binary_form::proofs::Puts::appended), unfolding(binary_form::specs::Form::field, binary_form::specs::Form::only, binary_form::specs::Form::gap, binary_form::specs::Form::done, binary_form::specs::Form::coded, crate::specs::Image::counts, crate::specs::Image::header))]
fn put_header(out: &mut Vec<u8>, h: &Header) -> Result<(), AllocError>
    ensures { OnOk result (out.new.items ≡ out.old.items ++ header.spell h.now) }
{
    put_tag(out, mark(h.tau0.is_some()))?;
    put_u8(out, h.cpus)?;
    put_u8(out, h.subjects)?;
    put_u8(out, h.groups)?;
    put_u8(out, h.majors)?;
    put_u8(out, h.devices)?;
    put_zeros(out, 3)?;
    put_u16(out, h.spans)?;
    put_tau0(out, h.tau0)?;
    Ok(())
}

#[tactic(auto, using(binary_form::proofs::Puts::appended), unfolding(binary_form::specs::Form::either, binary_form::specs::Form::present, binary_form::specs::Form::absent_value, crate::specs::Image::title))]
fn put_title(out: &mut Vec<u8>, part: &TagPart) -> Result<(), AllocError>
    ensures { OnOk result (out.new.items ≡ out.old.items ++ (title (part_code part.now)).spell (part_name part.now)) }
{
    match part {
        TagPart::Named(name) => put_name(out, name)?,
        _ => put_zeros(out, 64)?,
    }
    Ok(())
}

#[tactic(auto, using(binary_form::proofs::Puts::appended), unfolding(binary_form::specs::Form::field, binary_form::specs::Form::only, binary_form::specs::Form::gap, binary_form::specs::Form::done, binary_form::specs::Form::coded, crate::specs::Image::span))]
pub(crate) fn put_span(out: &mut Vec<u8>, s: &SpanPart) -> Result<(), AllocError>
    ensures { (h : Header) (b : SpansBefore) → OnOk result (out.new.items ≡ out.old.items ++ (span h b).spell s.now) }
{
    put_u64(out, s.address)?;
    put_u32(out, s.pages)?;
    put_u16(out, s.number)?;
    put_tag(out, &[s.kind.code()])?;
    put_u8(out, part_code(&s.tag.part))?;
    put_name(out, &s.tag.owner)?;
    put_title(out, &s.tag.part)?;
    put_zeros(out, 16)?;
    Ok(())
}

#[tactic(auto, using(binary_form::proofs::Puts::appended), unfolding(binary_form::specs::Form::field, binary_form::specs::Form::only, binary_form::specs::Form::gap, binary_form::specs::Form::done, crate::specs::Image::group))]
pub(crate) fn put_group(out: &mut Vec<u8>, g: &GroupPart) -> Result<(), AllocError>
    ensures { (h : Header) (b : ℕ) → OnOk result (out.new.items ≡ out.old.items ++ (group h b).spell g.now) }
{
    put_u8(out, g.cpu)?;
    put_u8(out, g.first)?;
    put_zeros(out, 6)?;
    Ok(())
}

fn put_events(out: &mut Vec<u8>, list: &[Option<EventPart>]) -> Result<(), AllocError>
    requires { (h : Header) × (events h).fits list.now }
    ensures { (h : Header) → OnOk result (out.new.items ≡ out.old.items ++ (events h).spell list.now) }
{
    put_items(list, out)?;
    Ok(())
}

#[tactic(auto, using(binary_form::proofs::Puts::appended), unfolding(binary_form::specs::Form::field, binary_form::specs::Form::only, binary_form::specs::Form::gap, binary_form::specs::Form::done, crate::specs::Image::subject))]
pub(crate) fn put_subject(out: &mut Vec<u8>, s: &SubjectPart) -> Result<(), AllocError>
    requires { (o : Outline) × (index : ℕ) × (subject o index).fits s.now }
    ensures { (o : Outline) (index : ℕ) → OnOk result (out.new.items ≡ out.old.items ++ (subject o index).spell s.now) }
{
    put_u8(out, s.cpu)?;
    put_u8(out, s.group)?;
    put_u8(out, s.msrs)?;
    put_zeros(out, 1)?;
    put_u16(out, s.state)?;
    put_u16(out, s.iobm)?;
    put_u16(out, s.msrbm)?;
    put_u16(out, s.area)?;
    put_zeros(out, 4)?;
    put_u64(out, s.eptp)?;
    put_name(out, &s.name)?;
    put_zeros(out, 8)?;
    put_events(out, s.calls.items())?;
    put_events(out, s.traps.items())?;
    Ok(())
}

#[tactic(auto, using(binary_form::proofs::Puts::appended), unfolding(binary_form::specs::Form::field, binary_form::specs::Form::only, binary_form::specs::Form::gap, binary_form::specs::Form::done, crate::specs::Image::minor_frame_form))]
pub(crate) fn put_minor(out: &mut Vec<u8>, f: &Minor) -> Result<(), AllocError>
    ensures { (o : Outline) (b : FramesBefore) → OnOk result (out.new.items ≡ out.old.items ++ (minor_frame_form o b).spell f.now) }
{
    put_u8(out, f.group)?;
    put_zeros(out, 3)?;
    put_u32(out, f.ticks)?;
    Ok(())
}

#[tactic(auto, using(binary_form::proofs::Puts::appended), unfolding(binary_form::specs::Form::field, binary_form::specs::Form::only, binary_form::specs::Form::gap, crate::specs::Image::frames))]
pub(crate) fn put_frames(out: &mut Vec<u8>, list: &Seq<Minor>) -> Result<(), AllocError>
    requires { (o : Outline) × (c : CpuTicks) × (frames o c).fits list.now }
    ensures { (o : Outline) (c : CpuTicks) → OnOk result (out.new.items ≡ out.old.items ++ (frames o c).spell list.now) }
{
    put_u16(out, as_u16(list.len()))?;
    put_zeros(out, 2)?;
    put_items(list.items(), out)?;
    Ok(())
}

#[tactic(auto, using(binary_form::proofs::Puts::appended), unfolding(binary_form::specs::Form::field, binary_form::specs::Form::only, binary_form::specs::Form::done, crate::specs::Image::major))]
pub(crate) fn put_major(out: &mut Vec<u8>, m: &Major) -> Result<(), AllocError>
    requires { (o : Outline) × (b : ℕ) × (major o b).fits m.now }
    ensures { (o : Outline) (b : ℕ) → OnOk result (out.new.items ≡ out.old.items ++ (major o b).spell m.now) }
{
    put_u32(out, m.ticks)?;
    put_items(m.cpus.items(), out)?;
    Ok(())
}

#[tactic(auto, using(binary_form::proofs::Puts::appended), unfolding(binary_form::specs::Form::field, binary_form::specs::Form::only, binary_form::specs::Form::done, crate::specs::Image::range))]
pub(crate) fn put_range(out: &mut Vec<u8>, r: &PortSpan) -> Result<(), AllocError>
    ensures { (h : Header) (b : ℕ) → OnOk result (out.new.items ≡ out.old.items ++ (range h b).spell r.now) }
{
    put_u16(out, r.start)?;
    put_u16(out, r.end)?;
    Ok(())
}

#[tactic(auto, using(binary_form::proofs::Puts::appended), unfolding(binary_form::specs::Form::field, binary_form::specs::Form::only, binary_form::specs::Form::done, crate::specs::Image::window_form))]
pub(crate) fn put_window(out: &mut Vec<u8>, w: &WindowPart) -> Result<(), AllocError>
    ensures { (o : Outline) (names : List (List ℕ)) → OnOk result (out.new.items ≡ out.old.items ++ (window_form o names).spell w.now) }
{
    put_u16(out, w.span)?;
    Ok(())
}

#[tactic(auto, using(binary_form::proofs::Puts::appended), unfolding(binary_form::specs::Form::field, binary_form::specs::Form::only, binary_form::specs::Form::gap, binary_form::specs::Form::done, crate::specs::Image::irq))]
pub(crate) fn put_irq(out: &mut Vec<u8>, q: &IrqPart) -> Result<(), AllocError>
    ensures { (h : Header) (names : List (List ℕ)) → OnOk result (out.new.items ≡ out.old.items ++ (irq h names).spell q.now) }
{
    put_name(out, &q.name)?;
    put_u8(out, subject_code(&q.target))?;
    put_u8(out, irq_vector_code(&q.target))?;
    put_zeros(out, 2)?;
    Ok(())
}

#[tactic(auto, using(binary_form::proofs::Puts::appended), unfolding(binary_form::specs::Form::field, binary_form::specs::Form::only, binary_form::specs::Form::gap, binary_form::specs::Form::done, crate::specs::Image::device))]
pub(crate) fn put_device(out: &mut Vec<u8>, d: &DevicePart) -> Result<(), AllocError>
    requires { (o : Outline) × (names : List (List ℕ)) × (device o names).fits d.now }
    ensures { (o : Outline) (names : List (List ℕ)) → OnOk result (out.new.items ≡ out.old.items ++ (device o names).spell d.now) }
{
    put_name(out, &d.name)?;
    put_u8(out, as_u8(d.ports.len()))?;
    put_u8(out, as_u8(d.windows.len()))?;
    put_u8(out, as_u8(d.irqs.len()))?;
    put_zeros(out, 1)?;
    put_items(d.ports.items(), out)?;
    put_items(d.windows.items(), out)?;
    put_items(d.irqs.items(), out)?;
    Ok(())
}

#[tactic(auto, unfolding(binary_form::specs::Form::each, crate::specs::Image::content))]
fn put_contents(out: &mut Vec<u8>, spans: &[SpanPart], list: &[Seq<u8>]) -> Result<(), AllocError>
    requires { (each content spans.now).fits list.now }
    ensures { OnOk result (out.new.items ≡ out.old.items ++ (each content spans.now).spell list.now) }
{
    for content in list {
        put_bytes(out, content.items())?;
    }
    Ok(())
}

/// Writes the bytes of an image behind those that are there.
///
/// # Errors
/// Memory is refused.
#[tactic(auto, using(binary_form::proofs::Puts::appended), unfolding(binary_form::specs::Form::field, binary_form::specs::Form::done, crate::specs::Image::image))]
pub(crate) fn put_image(out: &mut Vec<u8>, i: &Image) -> Result<(), AllocError>
    requires { image.fits i.now }
    ensures { OnOk result (out.new.items ≡ out.old.items ++ image.spell i.now) }
{
    put_header(out, &i.header)?;
    put_items(i.spans.items(), out)?;
    put_items(i.plan.groups.items(), out)?;
    put_items(i.subjects.items(), out)?;
    put_items(i.plan.majors.items(), out)?;
    put_items(i.devices.items(), out)?;
    put_contents(out, i.spans.items(), i.contents.items())?;
    Ok(())
}
