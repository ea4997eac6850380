//! Reads a whole image.
#![tactic(auto, unfolding(binary_form::specs::Form::only, binary_form::specs::Form::field, binary_form::specs::Form::gap, binary_form::specs::Form::done))]

ghost use Rattle.std.specs.Prelude.{◌≡◌};
ghost use Rattle.binary_form.specs.Form.{Form, Gives, each, whole};
ghost use Rattle.image_pack.specs.Image.{content, image};

use crate::items::items_of;
use crate::outline::Outline;
use crate::parts::{DevicePart, Image, SpanPart, SubjectPart};
use crate::reading::header::header_of;
use crate::reading::spans::spans_of;
use binary_form::reading::bytes_upto;
use binary_form::{FormError, FormFault};
use frame_clock::{GroupPart, Major, Plan};
use muen_num::Seq;
use muen_num::limits::PAGE;
use std::alloc::Global;

// The bytes of a span.
#[tactic(auto, unfolding(crate::specs::Image::content))]
fn content_of<'a>(
    alloc: Global,
    span: &SpanPart,
    bytes: &'a [u8],
) -> Result<(Seq<u8>, &'a [u8]), FormError>
    ensures { Gives (λ x. (x.0, x.1.now)) result ((content span.now).read bytes.now) }
{
    if span.kind.is_device() {
        bytes_upto(alloc, bytes, 0)
    } else {
        bytes_upto(alloc, bytes, PAGE as usize * span.pages as usize)
    }
}

#[tactic(auto, unfolding(binary_form::specs::Form::each))]
fn contents_of<'a>(
    alloc: Global,
    spans: &[SpanPart],
    bytes: &'a [u8],
) -> Result<(Seq<Seq<u8>>, &'a [u8]), FormError>
    ensures { Gives (λ x. (x.0, x.1.now)) result ((each content spans.now).read bytes.now) }
{
    let mut list = Seq::new(alloc);
    let mut rest = bytes;
    for span in spans {
        let (content, after) = content_of(alloc, span, rest)?;
        list.push(content)?;
        rest = after;
    }
    Ok((list, rest))
}

#[tactic(auto, unfolding(binary_form::specs::Form::field, binary_form::specs::Form::done, crate::specs::Image::image))]
fn image_of(alloc: Global, bytes: &[u8]) -> Result<(Image, &[u8]), FormError>
    ensures { Gives (λ x. (x.0, x.1.now)) result (image.read bytes.now) }
{
    let (header, rest) = header_of(bytes)?;
    let (spans, rest) = spans_of(alloc, &header, rest)?;
    let (groups, rest) = items_of::<GroupPart>(alloc, &header, 0, header.groups as usize, rest)?;
    let outline = Outline {
        header,
        spans,
        groups,
    };
    let (subjects, rest) = items_of::<SubjectPart>(
        alloc,
        &outline,
        0,
        header.subjects as usize,
        rest,
    )?;
    let (majors, rest) = items_of::<Major>(alloc, &outline, 0, header.majors as usize, rest)?;
    let (devices, rest) = items_of::<DevicePart>(
        alloc,
        &outline,
        Seq::new(alloc),
        header.devices as usize,
        rest,
    )?;
    let (contents, rest) = contents_of(alloc, outline.spans.items(), rest)?;
    let Outline { spans, groups, .. } = outline;
    Ok((
        Image {
            header,
            spans,
            subjects,
            plan: Plan { groups, majors },
            devices,
            contents,
        },
        rest,
    ))
}

/// The image that the bytes are, to the last one.
#[tactic(auto, unfolding(binary_form::specs::Form::whole))]
pub(crate) fn all_of(alloc: Global, bytes: &[u8]) -> Result<Image, FormError>
    ensures { Gives (λ i. i) result (whole image bytes.now) }
{
    let (image, rest) = image_of(alloc, bytes)?;
    if rest.is_empty() {
        Ok(image)
    } else {
        Err(FormError::At(FormFault::Trailing(rest.len())))
    }
}
