//! Reads subjects and their events.
#![tactic(auto, unfolding(binary_form::specs::Form::only, binary_form::specs::Form::field, binary_form::specs::Form::gap, binary_form::specs::Form::done))]

ghost use Rattle.std.specs.Prelude.{◌≡◌};
ghost use Rattle.binary_form.specs.Form.{Form, Gives, only, number};
ghost use Rattle.binary_form.specs.declared.fault.Field.{Field};
ghost use Rattle.std.specs.Int.{w16};
ghost use Rattle.frame_clock.specs.Plan.{is_group_on};
ghost use Rattle.image_pack.specs.Codes.{part_code};
ghost use Rattle.image_pack.specs.Image.{is_first_here, is_group_of, is_kernel_span, is_eptp, event, events, subject, next_index, nothing_left};

use crate::codes::{event_at, event_bytes, part_code};
use crate::items::{Item, items_of};
use crate::outline::{Header, Outline};
use crate::parts::{EventPart, SpanPart, SubjectPart};
use crate::writing::put_subject;
use binary_form::reading::{bad, byte_of, gap_of, name_of, u16_of, u64_of};
use binary_form::writing::put_tag;
use binary_form::{Field, FormError};
use frame_clock::GroupPart;
use muen_num::limits::{MOST_CALLS, MOST_MSRS, PAGE, PHYSICAL_END};
use muen_num::{Seq, TagPart};
use std::alloc::{AllocError, Global};

/// The lowest 12 bits of an extended-page-table pointer: four levels of tables, write-back memory.
const EPTP_LOW: u64 = 0x1E;

/// Whether a group is there, and on this CPU.
pub(crate) fn is_group_on(groups: &[GroupPart], cpu: u8, group: u8) -> bool
    ensures { result ≡ is_group_on groups.now cpu group }
{
    match groups.get(group as usize) {
        Some(group) => group.cpu == cpu,
        None => false,
    }
}

// Whether each group whose first member is this subject is this group.
fn is_first_here(groups: &[GroupPart], index: u8, number: u8) -> bool
    ensures { result ≡ is_first_here groups.now index number }
{
    groups.iter().enumerate().all(|(group, part)| part.first != index || group == number as usize)
}

#[tactic(auto, unfolding(crate::specs::Image::is_group_of))]
fn is_group_of(outline: &Outline, index: u8, cpu: u8, number: u8) -> bool
    ensures { result ≡ is_group_of outline.now index cpu number }
{
    is_group_on(outline.groups.items(), cpu, number)
        && is_first_here(outline.groups.items(), index, number)
}

// Whether a span with this number is this part of its owner, with so many pages.
#[tactic(auto, unfolding(crate::specs::Image::is_kernel_span))]
fn is_kernel_span(spans: &[SpanPart], part: &TagPart, pages: u32, number: u16) -> bool
    ensures { result ≡ is_kernel_span spans.now (part_code part.now) pages number }
{
    let code = part_code(part);
    spans.iter().any(|span| {
        span.number == number && part_code(&span.tag.part) == code && pages <= span.pages
    })
}

// The number of such a span.
fn kernel_span_of<'a>(
    outline: &Outline,
    part: &TagPart,
    pages: u32,
    bytes: &'a [u8],
) -> Result<(u16, &'a [u8]), FormError>
    ensures { Gives (λ x. (x.0, x.1.now)) result ((only (is_kernel_span outline.now.spans (part_code part.now) pages) Field.Span (number w16)).read bytes.now) }
{
    let (number, rest) = u16_of(bytes)?;
    if is_kernel_span(outline.spans.items(), part, pages, number) {
        Ok((number, rest))
    } else {
        Err(bad(bytes, Field::Span))
    }
}

fn is_eptp(number: u64) -> bool
    ensures { result ≡ is_eptp number }
{
    number % PAGE == EPTP_LOW && number < PHYSICAL_END
}

impl Item for Option<EventPart> {
    ghost use Rattle.image_pack.specs.Image.{event, nothing_left};

    type Among = Header;

    type Before = u8;

    ghost next = { nothing_left };

    ghost form = { event };

    #[tactic(auto, unfolding(crate::specs::Image::event))]
    fn read<'a>(
        alloc: Global,
        among: &Header,
        before: &mut u8,
        bytes: &'a [u8],
    ) -> Result<(Option<EventPart>, &'a [u8]), FormError> {
        event_at(among, bytes)
    }

    #[tactic(auto, unfolding(binary_form::specs::Form::coded, crate::specs::Image::event))]
    fn put(&self, out: &mut Vec<u8>) -> Result<(), AllocError> {
        put_tag(out, &event_bytes(self))
    }
}

// The events of calls or of traps.
fn events_of<'a>(
    alloc: Global,
    header: &Header,
    bytes: &'a [u8],
) -> Result<(Seq<Option<EventPart>>, &'a [u8]), FormError>
    ensures { Gives (λ x. (x.0, x.1.now)) result ((events header.now).read bytes.now) }
{
    items_of::<Option<EventPart>>(alloc, header, 0, MOST_CALLS as usize, bytes)
}

impl Item for SubjectPart {
    ghost use Rattle.image_pack.specs.Image.{subject, next_index};

    type Among = Outline;

    type Before = u8;

    ghost next = { next_index };

    ghost form = { subject };

    #[tactic(auto, unfolding(binary_form::specs::Form::only, binary_form::specs::Form::field, binary_form::specs::Form::gap, binary_form::specs::Form::done, crate::specs::Image::subject))]
    fn read<'a>(
        alloc: Global,
        among: &Outline,
        before: &mut u8,
        bytes: &'a [u8],
    ) -> Result<(SubjectPart, &'a [u8]), FormError> {
        let (cpu, rest) = byte_of(bytes)?;
        if cpu >= among.header.cpus {
            return Err(bad(bytes, Field::Cpu));
        }
        let at = rest;
        let (group, rest) = byte_of(at)?;
        if !is_group_of(among, *before, cpu, group) {
            return Err(bad(at, Field::Group));
        }
        let at = rest;
        let (msrs, rest) = byte_of(at)?;
        if u64::from(msrs) > MOST_MSRS {
            return Err(bad(at, Field::Msrs));
        }
        let rest = gap_of(rest, 1, Field::Zero)?;
        let (state, rest) = kernel_span_of(among, &TagPart::State, 1, rest)?;
        let (iobm, rest) = kernel_span_of(among, &TagPart::Iobm, 2, rest)?;
        let (msrbm, rest) = kernel_span_of(among, &TagPart::Msrbm, 1, rest)?;
        let (area, rest) = kernel_span_of(among, &TagPart::Msrs, 1, rest)?;
        let at = gap_of(rest, 4, Field::Zero)?;
        let (eptp, rest) = u64_of(at)?;
        if !is_eptp(eptp) {
            return Err(bad(at, Field::Eptp));
        }
        let (name, rest) = match name_of(rest) {
            Ok(named) => named,
            Err(error) => return Err(error),
        };
        let rest = gap_of(rest, 8, Field::Zero)?;
        let (calls, rest) = events_of(alloc, &among.header, rest)?;
        let (traps, rest) = events_of(alloc, &among.header, rest)?;
        *before = before.saturating_add(1);
        Ok((
            SubjectPart {
                cpu,
                group,
                msrs,
                state,
                iobm,
                msrbm,
                area,
                eptp,
                name,
                calls,
                traps,
            },
            rest,
        ))
    }

    fn put(&self, out: &mut Vec<u8>) -> Result<(), AllocError> {
        put_subject(out, self)
    }
}
