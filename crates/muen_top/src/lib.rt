//! The commands of the program `muen`.
#![tactic(auto)]

ghost use Rattle.std.specs.Prelude.{◌≡◌, ◌≢◌, ◌⊎◌, [], IfSome, None, map, string_bytes};
ghost use Rattle.muen_outside.specs.Looks.{AreSingle, HeldAfter, ShowAll, looks_since, writes_since};
ghost use Rattle.muen_outside.specs.States.{went};
ghost use Rattle.muen_top.specs.Asked.{Asks};
ghost use Rattle.muen_top.specs.Calls.{DoesAnswer, EndsAnswered, FilesFailed, IsFault, MemoryRefused, PrintsFront};
ghost use Rattle.muen_top.specs.Commands.{command_of};
ghost use Rattle.muen_top.specs.Complete.{IsComplete};
ghost use Rattle.muen_top.specs.Headline.{BootPrintsSystem, BuildWritesImage, RunOfBuiltPrintsSystem, RunOfSoundPrintsSystem, VerifyAcceptsBuilt, VerifyTellsFault, VerifyTellsSound};
ghost use Rattle.muen_top.specs.LoadLaws.{LoadEnds};
ghost use Rattle.muen_top.specs.Reports.{IsReported};
ghost use Rattle.muen_top.specs.Systems.{PrintsAlike, RunsSubjectsAlone};

mod boot;
mod build;
mod call;
mod command;
mod laws;
pub mod limits;
mod load;
mod loading;
mod outcome;
mod over_held;
mod policy_commands;
mod report;
mod run;
mod status;
mod tables;
mod twice;
mod verify;

pub use generated_system::{Generated, generate};
pub use laws::{ends_tell_refusals, generated_systems_are_accepted};
use muen_outside::{Files, Sink};
pub use outcome::CommandError;
pub use over_held::muen_over_held;
pub use status::Status;
use std::alloc::Global;
pub use twice::muen_twice;
pub use verify::{ToJudge, read_to_judge};

/// Does what the words after the program's name ask for, and answers the status.
///
/// `build POLICY IMAGE` reads a policy and the files that it names, and writes an image that is
/// sound for them under the name IMAGE, in one call of `files` and only where everything before was
/// accepted. `build POLICY IMAGE DMA` writes the same image, and then the tables of the policy's domains of
/// devices under the name DMA, which is another. `boot POLICY RECORD` reads a policy and the files that it
/// names, and a device record, makes the same image and the same tables in memory, runs the image on the
/// record, with the tables, and puts the text of the run to `out`. `run IMAGE RECORD` reads an image and a
/// device record for it, runs the image on the record, and puts the text of that run to `out`; `run IMAGE
/// RECORD DMA` reads a file of tables too, and runs with them. Without tables no device reaches memory by
/// itself. `map POLICY` puts where the policy's regions lie and what each subject
/// sees, `flows POLICY` on whom each subject can depend; neither reads a component file. `verify IMAGE
/// POLICY` reads an image, a policy and the files that it names, and puts `sound` to `out` where the image
/// is sound for them; where regions lie is not asked. `load NUMBER` boots the system that is generated of a number from
/// 0 to 65535 in memory, and puts how many subjects and ticks it has, and the length and the digest of its text; it looks at
/// no file. On every status but 0 one line that begins with `muen: ` is put to `err`; a fault
/// of `err` changes no status.
///
/// | Status | Comes | Line |
/// |---|---|---|
/// | 0 | the text was put, or the image was written, and the tables where they are wanted | |
/// | 1 | the words are none of the forms | `usage: ..` |
/// | 2 | the policy is no JSON text, breaks the schema or a rule, has more bytes for a region than there is room (`build`, `boot`, `verify`), or has a region that can't be placed (`build`, `boot`, `map`) | `not JSON`, `shape at PLACE: want WANT`, `rule N: FIRST SECOND`, `REGION: LENGTH bytes in room for ROOM`, `no room for REGION of SIZE bytes` |
/// | 3 | a file isn't there, or is longer than 4 MiB (policy), 64 MiB (a content, tables), 96 MiB (image) or 16 MiB (record) | `missing file NAME`, `file NAME has LENGTH bytes` |
/// | 4 | the last look at `files` failed; or the last write, of the image or of the tables, and what stands under its name may have changed | `file fault` |
/// | 5 | the image is refused (`run`, `verify`) | `image refused at AT: FIELD` |
/// | 6 | the record is refused (`boot`, `run`) | `record refused at line LINE: WHY` |
/// | 7 | a call on `out` failed; a front of the text was put | `output fault` |
/// | 8 | memory was refused, before the first turn (`load`: before its text was put); where that was for the last write, of the image or of the tables, what stands under its name may have changed | `out of memory` |
/// | 9 | the image isn't sound for the policy and its files (`verify`) | `not sound: FAULT` |
/// | 10 | the tables are refused (`run`) | `dma refused at AT: FIELD` |
pub fn muen<F: Files, S: Sink, E: Sink>(
    alloc: Global,
    words: &[String],
    files: &mut F,
    out: &mut S,
    err: &mut E,
) -> Status
    // The call made these looks, and then these writes. It looked at no name twice, and each answer
    // is one that its limit allows: so there are stores that agree with all of them. Where files tell
    // what they hold, that is one.
    ensures history { F.history files.new ≡ went (F.history files.old) (looks_since (F.history files.old) (F.history files.new)) (writes_since (F.history files.old) (F.history files.new)) }
    ensures once { AreSingle (looks_since (F.history files.old) (F.history files.new)) }
    ensures agrees { IfSome (F.held files.old) (λ m. ShowAll m (looks_since (F.history files.old) (F.history files.new))) }
    // Which files were looked at, and with which limits; and what the writes leave of what is held.
    ensures asked { Asks (command_of (map string_bytes words.now)) (looks_since (F.history files.old) (F.history files.new)) }
    ensures held { HeldAfter (writes_since (F.history files.old) (F.history files.new)) (F.held files.old) (F.held files.new) }

    // What follows is so over every store that agrees with these looks. The headline: where it holds a
    // policy that is accepted, and a record of its devices with any order of the CPUs in each tick,
    // `boot` prints the text of the policy's system, in which each subject acts alone on its own state
    // and what the policy lets reach it.
    ensures boots { BootPrintsSystem (map string_bytes words.now) (looks_since (F.history files.old) (F.history files.new)) (S.state out.old) (S.state out.new) result }
    // So does `run` where it holds an image that is sound for the policy over these or other files, and
    // tables that fit, or without tables, where no domain of devices lets one write,
    ensures runs_sound { RunOfSoundPrintsSystem (map string_bytes words.now) (looks_since (F.history files.old) (F.history files.new)) (S.state out.old) (S.state out.new) result }
    // and where it holds the image that `build` has written for it, and the tables, or without them as
    // before.
    ensures runs_built { RunOfBuiltPrintsSystem (map string_bytes words.now) (looks_since (F.history files.old) (F.history files.new)) (S.state out.old) (S.state out.new) result }
    // In each of these systems every subject acts alone: its view is that of the subject by itself, by what reaches it, and
    // the run is the runs of its subjects alone, put together. And of each member of a closed set the same is printed in
    // every other system that agrees on the set.
    ensures alone { RunsSubjectsAlone (map string_bytes words.now) (looks_since (F.history files.old) (F.history files.new)) }
    ensures alike { PrintsAlike (map string_bytes words.now) (looks_since (F.history files.old) (F.history files.new)) }
    // Such a one `build` writes under the image's name, and such tables under theirs: a `run` of both prints
    // that text.
    ensures built { BuildWritesImage (map string_bytes words.now) (looks_since (F.history files.old) (F.history files.new)) (writes_since (F.history files.old) (F.history files.new)) result }

    // `verify` with status 0 tells that every store that agrees with the looks holds an image that is sound for the policy
    // over what it holds: so a `run` of it prints that text, whoever made it. With status 9 it tells the first fault; any but
    // that a table is read on two paths says that the image isn't sound.
    ensures verifies { VerifyTellsSound (map string_bytes words.now) (looks_since (F.history files.old) (F.history files.new)) result }
    ensures condemns { VerifyTellsFault (map string_bytes words.now) (looks_since (F.history files.old) (F.history files.new)) (E.state err.old) (E.state err.new) result }
    // What `build` has written has no fault, while files hold the same.
    ensures acquits_built { VerifyAcceptsBuilt (map string_bytes words.now) (looks_since (F.history files.old) (F.history files.new)) (S.state out.old) (S.state out.new) result }

    // What is put or written is the words' answer, and nothing else is. For `boot` it is the text of the
    // policy's system. For `run` it is the text of the image's run on the record, as the record is read
    // for this image, on a machine with its kernel. For `build` it is the write of an image that is
    // sound for the policy and the files, and then, where the words name them, of the tables of its domains.
    ensures done { result ≡ Status.Done → DoesAnswer (map string_bytes words.now) (F.history files.old) (F.history files.new) (S.state out.old) (S.state out.new) }
    ensures prefix { result ≡ Status.OutputFault → PrintsFront (map string_bytes words.now) (looks_since (F.history files.old) (F.history files.new)) (S.state out.old) (S.state out.new) }

    // The call ends as the words are answered, but for a fault or want of memory: on a refusal, with the reason in that
    // answer (`ends_tell_refusals`).
    ensures ends { IsFault result ⊎ EndsAnswered (map string_bytes words.now) (looks_since (F.history files.old) (F.history files.new)) (E.state err.old) (E.state err.new) result }

    // Where no look, no write and no put fails, and memory suffices, it does the whole of that answer, with its
    // status, its line and its output, and nothing else: so 4 and 7 come of a failure alone.
    ensures complete { IsComplete (map string_bytes words.now) (F.history files.old) (F.history files.new) (S.state out.old) (S.state out.new) (E.state err.old) (E.state err.new) result }

    // When each other status comes.
    ensures usage { result ≡ Status.Usage → command_of (map string_bytes words.now) ≡ None }
    ensures no_command { command_of (map string_bytes words.now) ≡ None → (result ≡ Status.Usage) × (F.history files.new ≡ F.history files.old) }
    ensures file_fault { result ≡ Status.FileFault → FilesFailed (map string_bytes words.now) (F.history files.old) (F.history files.new) }
    ensures no_memory { result ≡ Status.NoMemory → MemoryRefused (map string_bytes words.now) (F.history files.old) (F.history files.new) }

    // `load` ends with 0, 7 or 8.
    ensures loads { LoadEnds (map string_bytes words.now) result }

    // One line is put to `err` where the status isn't 0.
    ensures reports { IsReported (E.state err.old) (E.state err.new) result }

    // Nothing is written or put where nothing is to be.
    ensures unwritten { result ≢ Status.Done → result ≢ Status.FileFault → result ≢ Status.NoMemory → writes_since (F.history files.old) (F.history files.new) ≡ [] }
    ensures quiet_out { result ≢ Status.Done → result ≢ Status.OutputFault → S.state out.new ≡ S.state out.old }
    ensures quiet_err { result ≡ Status.Done → E.state err.new ≡ E.state err.old }
{
    call::call(alloc, words, files, out, err)
}
