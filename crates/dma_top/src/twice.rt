//! Two calls, of which the second runs what the first has judged.
ghost use Rattle.std.specs.Prelude.{map, string_bytes};
ghost use Rattle.dma_top.specs.TwoCalls.{FitRunPrints};

use crate::muen_dma;
use crate::status::Status;
use muen_outside::{Files, Sink};
use muen_top::muen_over_held;
use std::alloc::Global;

/// A call of `muen_dma` and then one of `muen`, and their statuses: whoever has an image and tables from anywhere
/// verified, and runs the image with the tables, sees the text of the policy's system.
pub fn muen_dma_twice<F: Files, J: Sink, S: Sink, E: Sink>(
    alloc: Global,
    first: &[String],
    second: &[String],
    files: &mut F,
    first_out: &mut J,
    out: &mut S,
    err: &mut E,
) -> (Status, muen_top::Status)
    ensures { FitRunPrints (map string_bytes first.now) (map string_bytes second.now) (F.held files.old) (S.state out.old) (S.state out.new) result.0 result.1 }
{
    let verified = muen_dma(alloc, first, files, first_out, err);
    let ran = muen_over_held(alloc, second, files, out, err);
    (verified, ran)
}
