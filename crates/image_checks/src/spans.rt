//! The spans of an image by their numbers: their printed names and sizes.
ghost use Rattle.std.specs.Prelude.{◌≡◌, ◌*◌, length, Some};
ghost use Rattle.image_checks.specs.Firsts.{Decides};
ghost use Rattle.image_checks.specs.Agreement.{size_at};
ghost use Rattle.image_soundness.specs.Named.{tag_at};

use image_pack::{Image, SpanPart, span_numbered};
use muen_num::Tag;
use muen_num::limits::PAGE;

// How many bytes a span has.
fn size_of(span: &SpanPart) -> u64
    ensures { result ≡ PAGE * span.now.pages }
{
    let pages = span.pages;
    PAGE * u64::from(pages)
}

/// Whether the span of a number has this printed name.
pub(crate) fn has_tag(image: &Image, number: u16, tag: &Tag) -> bool
    requires { length image.now.contents ≡ length image.now.spans }
    ensures { Decides (tag_at image.now number ≡ Some tag.now) result }
{
    match span_numbered(image.spans.items(), usize::from(number)) {
        None => false,
        Some(span) => span.tag == *tag,
    }
}

/// Whether the span of a number has so many bytes.
pub(crate) fn has_size(image: &Image, number: u16, size: u64) -> bool
    requires { length image.now.contents ≡ length image.now.spans }
    ensures { Decides (size_at image.now number ≡ Some size) result }
{
    match span_numbered(image.spans.items(), usize::from(number)) {
        None => false,
        Some(span) => size_of(span) == size,
    }
}
