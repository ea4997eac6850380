//! The spans of a policy's things: its regions, and the memory of its devices.
ghost use Rattle.std.specs.Prelude.{◌≡◌, ◌==◌, ◌++◌, ◌<◌, All, length, option_to_list, position, slice_get, OnOk, IfOk, IfSome};
ghost use Rattle.image_checks.specs.Contents.{HasBytes, IsContentsFault, IsThingSpan, span_kind, thing_index, thing_indexes};
ghost use Rattle.image_checks.specs.Firsts.{Decides};
ghost use Rattle.image_soundness.specs.ThingBytes.{thing_bytes};
ghost use Rattle.image_soundness.specs.Sound.{is_kernel};
ghost use Rattle.policy_lawful.specs.Contents.{Held};
ghost use Rattle.policy_lawful.specs.Resolution.{source_of};

use expand_kernel::Expanded;
use image_pack::{Parts, SpanKind, SpanPart};
use muen_num::limits::PAGE;
use muen_num::{Name, NoMemory, Seq, Tag};
use policy_lawful::Thing;
use policy_lawful::thing::RegionKind;
use std::alloc::{AllocError, Global};

fn is_kernel(kind: SpanKind) -> bool
    ensures { result ≡ is_kernel kind }
{
    matches!(kind, SpanKind::Kernel)
}

fn index_of(spans: &[SpanPart], number: usize) -> Option<usize>
    ensures { result ≡ position (λ s. s.number == number) spans.now }
{
    spans.iter().position(|s| usize::from(s.number) == number)
}

// The index of the span of this number, where there is one that isn't the kernel's.
#[tactic(auto, unfolding(crate::specs::Contents::thing_index))]
fn thing_index(spans: &[SpanPart], number: usize) -> Option<usize>
    ensures value { result ≡ thing_index spans.now number }
    ensures within { IfSome result (λ k. k < length spans.now) }
{
    let index = index_of(spans, number)?;
    if is_kernel(spans[index].kind) {
        return None;
    }
    Some(index)
}

// Appends an index, where there is one.
fn push_some(indexes: &mut Vec<usize>, index: Option<usize>) -> Result<(), AllocError>
    ensures { OnOk result (indexes.new.items ≡ indexes.old.items ++ option_to_list index) }
{
    if let Some(k) = index {
        indexes.push(k)?;
    }
    Ok(())
}

/// The indexes of the spans that aren't the kernel's, in the order of the spans' numbers.
///
/// # Errors
/// Memory is refused.
#[tactic(auto, unfolding(crate::specs::Contents::thing_indexes))]
pub fn thing_indexes(alloc: Global, spans: &[SpanPart]) -> Result<Vec<usize>, AllocError>
    ensures value { IfOk result (λ v. v.items ≡ thing_indexes spans.now) }
    ensures within { IfOk result (λ v. All (λ k. k < length spans.now) v.items) }
{
    let mut indexes = Vec::new(alloc);
    for number in 0..spans.len() {
        push_some(&mut indexes, thing_index(spans, number))?;
    }
    Ok(indexes)
}

fn same_tag(thing: &Tag, span: &Tag) -> bool
    ensures { Decides (thing.now ≡ span.now) result }
{
    *thing == *span
}

fn kind_of(kind: RegionKind) -> SpanKind
    ensures { result ≡ span_kind kind }
{
    match kind {
        RegionKind::Own => SpanKind::Own,
        RegionKind::Channel => SpanKind::Channel,
        RegionKind::Provided => SpanKind::Provided,
        RegionKind::Device => SpanKind::Device,
        RegionKind::Kernel => SpanKind::Kernel,
    }
}

fn same_kind(thing: SpanKind, span: SpanKind) -> bool
    ensures { Decides (thing ≡ span) result }
{
    thing == span
}

// Whether a span has the bytes of the thing of this number, where it has some.
fn has_bytes(things: &[Seq<u8>], number: usize, held: &[u8]) -> bool
    ensures { Decides (HasBytes (slice_get things.now number) held.now) result }
{
    match things.get(number) {
        None => true,
        Some(bytes) => bytes.items() == held,
    }
}

// Whether a span is that of the thing of this number.
fn fits(thing: &Thing, things: &[Seq<u8>], number: usize, span: &SpanPart, held: &[u8]) -> bool
    ensures { Decides (IsThingSpan thing.now (slice_get things.now number) span.now held.now) result }
{
    same_tag(&thing.tag, &span.tag)
        && same_kind(kind_of(thing.kind), span.kind)
        && thing.size == PAGE * u64::from(span.pages)
        && has_bytes(things, number, held)
}

/// Whose span isn't there or isn't that of a thing of the policy, for the first thing by number; where
/// each has its own, whose the first span behind them is. The regions that aren't the kernel's hold
/// these bytes, by number.
///
/// # Errors
/// Memory is refused.
pub fn contents_fault(
    alloc: Global,
    expanded: &Expanded,
    things: &[Seq<u8>],
    image: &Parts,
) -> Result<Option<Name>, NoMemory>
    ensures { IfOk result (λ o. (files : Held) → things.now ≡ thing_bytes files expanded.now.lawful → IsContentsFault (source_of expanded.now.lawful) files image.now o) }
{
    let wanted = expanded.lawful().resolved().things();
    let spans = image.image().spans.items();
    let contents = image.image().contents.items();
    let found = thing_indexes(alloc, spans)?;
    for k in 0..wanted.len() {
        let thing = &wanted[k];
        if k >= found.len() {
            return Ok(Some(thing.tag.owner));
        }
        let index = found[k];
        if !fits(thing, things, k, &spans[index], contents[index].items()) {
            return Ok(Some(thing.tag.owner));
        }
    }
    if wanted.len() < found.len() {
        return Ok(Some(spans[found[wanted.len()]].tag.owner));
    }
    Ok(None)
}
