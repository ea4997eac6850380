//! The spans of a placed policy by their addresses.
ghost use Rattle.std.specs.Prelude.{IfOk};
ghost use Rattle.std.specs.List.Sorted.{IsNonDecreasingBy, IsPermutation};
ghost use Rattle.image_pack.specs.SpanConditions.{AreSpans};
ghost use Rattle.span_emit.specs.SpansOf.{spans_of};

use crate::by_number::by_number;
use image_pack::SpanPart;
use muen_num::{NoMemory, Seq};
use region_alloc::Placed;
use std::alloc::Global;

// By address.
fn sort(spans: &mut Vec<SpanPart>)
    ensures same { IsPermutation spans.old.items spans.new.items }
    ensures rise { IsNonDecreasingBy (λ s. s.address) spans.new.items }
{
    spans.sort_unstable_by_key(|span| span.address);
}

/// The spans of the image of a placed policy, by their addresses: each region at its address, and each
/// device's memory.
///
/// Answers `NoMemory` where memory was refused.
pub fn spans(alloc: Global, placed: &Placed) -> Result<Seq<SpanPart>, NoMemory>
    ensures numbered { IfOk result (λ spans. IsPermutation (spans_of placed.now) spans) }
    ensures spans { IfOk result AreSpans }
{
    let mut spans = by_number(alloc, placed)?;
    sort(&mut spans);
    Ok(Seq::of(spans))
}
