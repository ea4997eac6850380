//! Spans by their numbers.
ghost use Rattle.std.specs.Prelude.{◌≡◌, ◌==◌, IfSome, option_map};
ghost use Rattle.std.specs.List.{find};
ghost use Rattle.image_memory.specs.Memory.{AreLow, IsLow};

use image_pack::SpanPart;

/// The span of this number.
pub(crate) fn span_numbered<'a>(spans: &'a [SpanPart], number: u16) -> Option<&'a SpanPart>
    requires { AreLow spans.now }
    ensures found { option_map (λ s. s.now) result ≡ find (λ s. s.number == number) spans.now }
    ensures low { IfSome result (λ s. IsLow s.now) }
{
    spans.iter().find(|span| span.number == number)
}
