//! The pages of an image's spans, by the number of the span.
ghost use Rattle.std.specs.Prelude.{◌≡◌, ◌*◌, IfOk, drop, option_map, replicate, take};
ghost use Rattle.image_soundness.specs.Memory.{page_at, span_at};

use image_pack::{Image, SpanPart};
use muen_num::limits::PAGE;
use muen_num::{NoMemory, Seq};
use std::alloc::{AllocError, Global};

// The span of this number, with its bytes in the image.
fn span_at(image: &Image, number: u16) -> Option<(&SpanPart, &Seq<u8>)>
    ensures { option_map (λ e. (e.0.now, e.1.now)) result ≡ span_at image.now number }
{
    let spans = image.spans.items();
    let contents = image.contents.items();
    for index in 0..spans.len().min(contents.len()) {
        let span = &spans[index];
        if span.number == number {
            return Some((span, &contents[index]));
        }
    }
    None
}

// A page of these bytes, less where they end before it does.
fn page_of(alloc: Global, bytes: &[u8], page: u8) -> Result<Vec<u8>, AllocError>
    ensures { IfOk result (λ v. v.items ≡ take PAGE (drop (PAGE * page) bytes.now)) }
{
    let start = (PAGE as usize * usize::from(page)).min(bytes.len());
    let rest = &bytes[start..];
    let mut found = Vec::new(alloc);
    found.extend_from_slice(&rest[..(PAGE as usize).min(rest.len())])?;
    Ok(found)
}

// A page of a device's memory, which has so many.
fn page_of_zeros(alloc: Global, pages: u32, page: u8) -> Result<Vec<u8>, AllocError>
    ensures { IfOk result (λ v. v.items ≡ take PAGE (drop (PAGE * page) (replicate (PAGE * pages) 0))) }
{
    if u32::from(page) < pages {
        let zeros = vec![in alloc; 0u8; PAGE as usize]?;
        return Ok(zeros);
    }
    Ok(Vec::new(alloc))
}

/// A page of the span of this number, as it stands at the start. It has less bytes where the span ends
/// before it does, and none where there is no such span.
///
/// # Errors
/// Memory is refused.
pub(crate) fn page_at(
    alloc: Global,
    image: &Image,
    number: u16,
    page: u8,
) -> Result<Vec<u8>, NoMemory>
    ensures { IfOk result (λ v. v.items ≡ page_at image.now number page) }
{
    let Some((span, bytes)) = span_at(image, number) else {
        return Ok(Vec::new(alloc));
    };
    if span.kind.is_device() {
        return Ok(page_of_zeros(alloc, span.pages, page)?);
    }
    Ok(page_of(alloc, bytes.items(), page)?)
}
