// Two calls, of which the second runs what the first has made or judged.
ghost use Rattle.std.specs.Prelude.{map, string_bytes};
ghost use Rattle.muen_top.specs.TwoCalls.{BuiltRunPrints, VerifiedRunPrints};

use crate::muen;
use crate::over_held::muen_over_held;
use crate::status::Status;
use muen_outside::{Files, Sink};
use std::alloc::Global;

/// Two calls of `muen`, one after the other, and their statuses: whoever builds an image and runs it, or has
/// one from anywhere verified and runs it, sees the text of the policy's system.
pub fn muen_twice<F: Files, J: Sink, S: Sink, E: Sink>(
    alloc: Global,
    first: &[String],
    second: &[String],
    files: &mut F,
    first_out: &mut J,
    out: &mut S,
    err: &mut E,
) -> (Status, Status)
    ensures built { BuiltRunPrints (map string_bytes first.now) (map string_bytes second.now) (F.held files.old) (S.state out.old) (S.state out.new) result.0 result.1 }
    ensures verified { VerifiedRunPrints (map string_bytes first.now) (map string_bytes second.now) (F.held files.old) (S.state out.old) (S.state out.new) result.0 result.1 }
{
    let before = muen(alloc, first, files, first_out, err);
    let ran = muen_over_held(alloc, second, files, out, err);
    (before, ran)
}
