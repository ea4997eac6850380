//! The pages of the spans that have tables.
ghost use Rattle.std.specs.Prelude.{◌≡◌, ℕ, ◌/◌, ◌%◌, ◌++◌, IfOk, OnOk};
ghost use Rattle.ept_check.specs.Sound.{AreTables};
ghost use Rattle.muen_num.specs.Numbers.{is_among};
ghost use Rattle.image_memory.specs.Memory.{memory_of};
ghost use Rattle.image_soundness.specs.Sound.{is_in_tables, is_tables};
ghost use Rattle.image_verify.specs.TablePages.{pages_of_all, pages_of_span};

use image_pack::{Parts, SpanKind, SpanPart};
use muen_num::limits::PAGE;
use muen_num::{NoMemory, TagPart};
use std::alloc::Global;

// Whether a span has tables.
fn is_tables(span: &SpanPart) -> bool
    ensures { result ≡ is_tables span.now }
{
    match (span.kind, span.tag.part) {
        (SpanKind::Kernel, TagPart::Ept) => true,
        _ => false,
    }
}

// Appends the pages of a span.
fn push_pages(pages: &mut Vec<u64>, span: &SpanPart) -> Result<(), NoMemory>
    ensures { OnOk result (pages.new.items ≡ pages.old.items ++ pages_of_span span.now) }
{
    let first = span.address / PAGE;
    for k in 0..span.pages {
        pages.push(first + u64::from(k))?;
    }
    Ok(())
}

// The pages of all spans that have tables, span by span.
#[tactic(auto, unfolding(crate::specs::TablePages::pages_of_all))]
fn pages_of_all(alloc: Global, spans: &[SpanPart]) -> Result<Vec<u64>, NoMemory>
    ensures { IfOk result (λ v. v.items ≡ pages_of_all spans.now) }
{
    let mut pages = Vec::new(alloc);
    for span in spans {
        if is_tables(span) {
            push_pages(&mut pages, span)?;
        }
    }
    Ok(pages)
}

/// The numbers of the pages of an image's tables, rising: those of the spans that the kernel has for
/// tables.
///
/// # Errors
/// Memory is refused.
#[tactic(auto, using(crate::proofs::TablePages::are_tables, crate::proofs::TablePages::entry_among))]
pub fn table_pages(alloc: Global, image: &Parts) -> Result<Vec<u64>, NoMemory>
    ensures pages { IfOk result (λ v. v.items ≡ pages_of_all image.now.spans) }
    // they rise, and the image's memory has each
    ensures tables { IfOk result (λ v. AreTables (memory_of image.now) v.items) }
    // an entry lies in a span of tables just where its page is one of them
    ensures entries { IfOk result (λ v. (at : ℕ) → at % 8 ≡ 0 → is_in_tables image.now at ≡ is_among v.items (at / 4096)) }
{
    pages_of_all(alloc, image.image().spans.items())
}
