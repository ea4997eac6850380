//! Reads the counts at the front, and the scheduling groups.
#![tactic(auto, unfolding(binary_form::specs::Form::only, binary_form::specs::Form::field, binary_form::specs::Form::gap, binary_form::specs::Form::done))]

ghost use Rattle.std.specs.Prelude.{◌≡◌};
ghost use Rattle.binary_form.specs.Form.{Form, Gives, only, byte};
ghost use Rattle.binary_form.specs.declared.fault.Field.{Field};
ghost use Rattle.image_pack.specs.Image.{is_between_inclusive, tau0_span, tau0_at, counts, header, group, nothing_left};

use crate::codes::mark_of;
use crate::items::Item;
use crate::outline::Header;
use crate::writing::put_group;
use binary_form::reading::{bad, byte_of, gap_of, u16_of};
use binary_form::{Field, FormError};
use frame_clock::GroupPart;
use muen_num::limits::{
    MOST_CPUS, MOST_DEVICE_WINDOWS, MOST_DEVICES, MOST_MAJOR_FRAMES, MOST_REGIONS, MOST_SUBJECTS,
};
use std::alloc::{AllocError, Global};

/// Whether a number lies between two others, or is one of them.
pub(crate) fn is_between(low: u64, high: u64, n: u64) -> bool
    ensures { result ≡ is_between_inclusive low high n }
{
    low <= n && n <= high
}

// A count of one byte that lies between two numbers.
fn count_of(bytes: &[u8], low: u64, high: u64) -> Result<(u8, &[u8]), FormError>
    ensures { Gives (λ x. (x.0, x.1.now)) result ((only (is_between_inclusive low high) Field.Count byte).read bytes.now) }
{
    let (count, rest) = byte_of(bytes)?;
    if is_between(low, high, u64::from(count)) {
        Ok((count, rest))
    } else {
        Err(bad(bytes, Field::Count))
    }
}

fn tau0_span(spans: u16, bytes: &[u8]) -> Result<(u16, &[u8]), FormError>
    ensures { Gives (λ x. (x.0, x.1.now)) result ((tau0_span spans).read bytes.now) }
{
    let (number, rest) = u16_of(bytes)?;
    if number >= spans {
        return Err(bad(bytes, Field::Span));
    }
    let rest = gap_of(rest, 4, Field::Zero)?;
    Ok((number, rest))
}

#[tactic(auto, unfolding(binary_form::specs::Form::either, binary_form::specs::Form::present, binary_form::specs::Form::absent_value, crate::specs::Image::tau0_at))]
fn tau0_of(has_tau0: bool, spans: u16, bytes: &[u8]) -> Result<(Option<u16>, &[u8]), FormError>
    ensures { Gives (λ x. (x.0, x.1.now)) result ((tau0_at has_tau0 spans).read bytes.now) }
{
    if has_tau0 {
        let (number, rest) = tau0_span(spans, bytes)?;
        Ok((Some(number), rest))
    } else {
        let rest = gap_of(bytes, 6, Field::Zero)?;
        Ok((None, rest))
    }
}

#[tactic(auto, unfolding(binary_form::specs::Form::only, binary_form::specs::Form::field, binary_form::specs::Form::gap, binary_form::specs::Form::done, crate::specs::Image::counts))]
fn counts_of(has_tau0: bool, bytes: &[u8]) -> Result<(Header, &[u8]), FormError>
    ensures { Gives (λ x. (x.0, x.1.now)) result ((counts has_tau0).read bytes.now) }
{
    let (cpus, rest) = count_of(bytes, 1, MOST_CPUS)?;
    let (subjects, rest) = count_of(rest, 1, MOST_SUBJECTS as u64)?;
    let (groups, rest) = count_of(rest, 1, MOST_SUBJECTS as u64)?;
    let (majors, rest) = count_of(rest, 1, MOST_MAJOR_FRAMES as u64)?;
    let at = rest;
    let (devices, rest) = byte_of(at)?;
    if usize::from(devices) > MOST_DEVICES {
        return Err(bad(at, Field::Count));
    }
    let at = gap_of(rest, 3, Field::Zero)?;
    let (spans, rest) = u16_of(at)?;
    if usize::from(spans) > MOST_REGIONS + MOST_DEVICE_WINDOWS {
        return Err(bad(at, Field::Count));
    }
    let (tau0, rest) = tau0_of(has_tau0, spans, rest)?;
    Ok((
        Header {
            cpus,
            subjects,
            groups,
            majors,
            devices,
            spans,
            tau0,
        },
        rest,
    ))
}

/// The counts at the front of an image.
#[tactic(auto, unfolding(binary_form::specs::Form::field, crate::specs::Image::header))]
pub(crate) fn header_of(bytes: &[u8]) -> Result<(Header, &[u8]), FormError>
    ensures { Gives (λ x. (x.0, x.1.now)) result (header.read bytes.now) }
{
    let (has_tau0, rest) = mark_of(bytes)?;
    counts_of(has_tau0, rest)
}

impl Item for GroupPart {
    ghost use Rattle.image_pack.specs.Image.{group, nothing_left};

    type Among = Header;

    type Before = u8;

    ghost next = { nothing_left };

    ghost form = { group };

    #[tactic(auto, unfolding(binary_form::specs::Form::only, binary_form::specs::Form::field, binary_form::specs::Form::gap, binary_form::specs::Form::done, crate::specs::Image::group))]
    fn read<'a>(
        alloc: Global,
        among: &Header,
        before: &mut u8,
        bytes: &'a [u8],
    ) -> Result<(GroupPart, &'a [u8]), FormError> {
        let (cpu, rest) = byte_of(bytes)?;
        if cpu >= among.cpus {
            return Err(bad(bytes, Field::Cpu));
        }
        let at = rest;
        let (first, rest) = byte_of(at)?;
        if first >= among.subjects {
            return Err(bad(at, Field::First));
        }
        let rest = gap_of(rest, 6, Field::Zero)?;
        Ok((GroupPart { cpu, first }, rest))
    }

    fn put(&self, out: &mut Vec<u8>) -> Result<(), AllocError> {
        put_group(out, self)
    }
}
