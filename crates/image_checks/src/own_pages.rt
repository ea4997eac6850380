//! The spans that each subject has for itself.
ghost use Rattle.std.specs.Prelude.{◌≡◌, ◌==◌, length, take};
ghost use Rattle.std.specs.List.{list_any};
ghost use Rattle.image_checks.specs.Firsts.{Decides, IsFirstFailing};
ghost use Rattle.image_checks.specs.OwnPages.{SharesWithNone};
ghost use Rattle.image_soundness.specs.Sound.{own_spans, share_a_span};
ghost use Rattle.muen_num.specs.Range.{numbers_below};
ghost use Rattle.policy_lawful.specs.Resolution.{source_of};

use expand_kernel::Expanded;
use image_pack::{Parts, SubjectPart};

// Whether a subject has the span of this number for its state, bitmaps or MSR area.
fn has_span(part: &SubjectPart, number: u16) -> bool
    ensures { result ≡ list_any (λ m. m == number) (own_spans part.now) }
{
    part.state == number || part.iobm == number || part.msrbm == number || part.area == number
}

fn share_a_span(a: &SubjectPart, b: &SubjectPart) -> bool
    ensures { result ≡ share_a_span a.now b.now }
{
    has_span(b, a.state) || has_span(b, a.iobm) || has_span(b, a.msrbm) || has_span(b, a.area)
}

// Whether the subject at an index shares a span with none of the others.
fn shares_with_none(parts: &[SubjectPart], index: usize) -> bool
    ensures { Decides (SharesWithNone parts.now index) result }
{
    let Some(part) = parts.get(index) else {
        return true;
    };
    for (other, theirs) in parts.iter().enumerate() {
        if other != index && share_a_span(part, theirs) {
            return false;
        }
    }
    true
}

// The first that shares a span with another.
fn first_sharing(parts: &[SubjectPart]) -> Option<usize>
    ensures { IsFirstFailing (SharesWithNone parts.now) (numbers_below (length parts.now)) result }
{
    for index in 0..parts.len() {
        if !shares_with_none(parts, index) {
            return Some(index);
        }
    }
    None
}

/// The first subject, of those that both have, that shares a span of its state, bitmaps or MSR area
/// with another of them.
pub fn first_by_own_pages(expanded: &Expanded, image: &Parts) -> Option<usize>
    ensures { let common = take (length (source_of expanded.now.lawful).subjects) image.now.subjects in IsFirstFailing (SharesWithNone common) (numbers_below (length common)) result }
{
    let parts = image.image().subjects.items();
    let many = expanded.lawful().resolved().subjects().len();
    first_sharing(&parts[..many.min(parts.len())])
}
