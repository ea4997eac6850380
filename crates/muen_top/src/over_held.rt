// What follows where files tell what they hold.
ghost use Rattle.std.specs.Prelude.{◌⊎◌, IfSome, map, string_bytes};
ghost use Rattle.muen_top.specs.Calls.{IsFault, answer_to};
ghost use Rattle.muen_top.specs.Headline.{BootPrintsHeld, BuildLeavesImage, RunOfBuiltPrintsHeld, RunOfSoundPrintsHeld};
ghost use Rattle.muen_top.specs.Reports.{Ends};
ghost use Rattle.muen_top.specs.Systems.{PrintsAlikeHeld, RunsSubjectsAloneHeld};

use crate::muen;
use crate::status::Status;
use muen_outside::{Files, Sink};
use std::alloc::Global;

/// `muen`, of which less is said: what is so over every store that agrees with the call's looks is so
/// over what files told that they hold.
pub fn muen_over_held<F: Files, S: Sink, E: Sink>(
    alloc: Global,
    words: &[String],
    files: &mut F,
    out: &mut S,
    err: &mut E,
) -> Status
    ensures boots { BootPrintsHeld (map string_bytes words.now) (F.held files.old) (S.state out.old) (S.state out.new) result }
    ensures runs_sound { RunOfSoundPrintsHeld (map string_bytes words.now) (F.held files.old) (S.state out.old) (S.state out.new) result }
    ensures runs_built { RunOfBuiltPrintsHeld (map string_bytes words.now) (F.held files.old) (S.state out.old) (S.state out.new) result }
    ensures alone { RunsSubjectsAloneHeld (map string_bytes words.now) (F.held files.old) }
    ensures alike { PrintsAlikeHeld (map string_bytes words.now) (F.held files.old) }
    // What `build` wrote stands under the image's name, and under that of the tables, where the words have it.
    ensures built { BuildLeavesImage (map string_bytes words.now) (F.held files.old) (F.held files.new) result }
    // The call ends as these words are answered, but for a fault or want of memory.
    ensures told { IsFault result ⊎ IfSome (F.held files.old) (λ m. Ends (answer_to (map string_bytes words.now) m) (E.state err.old) (E.state err.new) result) }
{
    muen(alloc, words, files, out, err)
}
