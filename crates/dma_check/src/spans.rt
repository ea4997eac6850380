//! The spans of an image.
ghost use Rattle.std.specs.Prelude.{◌≡◌, All, IfOk};
ghost use Rattle.image_pack.specs.Parts.{IsParts};
ghost use Rattle.image_pack.specs.SpanConditions.{IsSpan};

use image_pack::{Parts, SpanPart};
use muen_num::{NoMemory, Seq};
use std::alloc::{AllocError, Global};
use std::marker::Model;

/// The spans of an image, which are all that a verdict on tables asks of it. Contracts see their list.
#[derive(Debug, Drop)]
pub struct ImageSpans {
    spans: Seq<SpanPart>,
}

impl Model for ImageSpans {
    ghost use Rattle.std.specs.Prelude.{All, List};
    ghost use Rattle.image_pack.specs.SpanConditions.{IsSpan};
    ghost use Rattle.image_pack.specs.declared.parts.SpanPart.{SpanPart};

    ghost Value = { List SpanPart };

    ghost view = { λ s. s.spans };

    ghost invariant = { λ s. All IsSpan s.spans };
}

fn copied(alloc: Global, spans: &[SpanPart]) -> Result<Vec<SpanPart>, AllocError>
    ensures { IfOk result (λ v. v.items ≡ spans.now) }
{
    spans.iter().copied().collect(alloc)
}

impl ImageSpans {
    /// The spans of an image, which may be let go then.
    ///
    /// # Errors
    /// Memory is refused.
    pub fn of(alloc: Global, image: &Parts) -> Result<ImageSpans, NoMemory>
        ensures same { IfOk result (λ s. s ≡ image.now.spans) }
        ensures parts { IsParts image.now }
    {
        let spans = copied(alloc, image.image().spans.items())?;
        Ok(ImageSpans {
            spans: Seq::of(spans),
        })
    }

    /// The spans, lent.
    pub(crate) fn items(&self) -> &[SpanPart]
        ensures same { result.now ≡ self.now }
        ensures each { All IsSpan self.now }
    {
        self.spans.items()
    }
}
