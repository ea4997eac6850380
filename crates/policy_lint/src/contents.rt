// Contents, each held against the room for it.
ghost use Rattle.std.specs.Prelude.{◌≡◌, [], IfErr, IfOk};
ghost use Rattle.muen_build.specs.Accepting.{IsAskedBy, WithGiven, given_files, thing_refused};
ghost use Rattle.muen_build.specs.Looks.{names_file};
ghost use Rattle.policy_lawful.specs.Resolution.{source_of};
ghost use Rattle.policy_lint.specs.Seen.{SeesContent, StopsAtContent, StopsLooking, length_refused, seen_looks};
ghost use Rattle.policy_lint.specs.Linting.{TellsContents};

use crate::error::LintError;
use crate::seen::{FileLength, SeenFile, length_of};
use muen_build::{Given, fits, part_length};
use muen_num::{Name, Seq};
use muen_outside::Files;
use policy_lawful::source::Content;
use policy_lawful::{Lawful, Refusal, Resolved, Thing};
use std::alloc::Global;

// The refusal of the bytes that a content takes of a file with this length, if they are refused in the
// region of a thing.
fn file_refused(
    thing: &Thing,
    file: Name,
    offset: u64,
    most: Option<u64>,
    length: FileLength,
) -> Option<Refusal>
    ensures { result ≡ length_refused thing.now.tag thing.now.size file offset most length }
{
    match length {
        FileLength::Bytes(count) => fits(thing, part_length(count, offset, most)).err(),
        FileLength::Missing => Some(Refusal::Missing { file }),
        FileLength::TooLong(length) => Some(Refusal::TooLong { file, length }),
    }
}

// The refusal of a thing's content, if it is refused.
#[tactic(auto, using(crate::proofs::ContentsTold::file_told, crate::proofs::ContentsTold::file_stops, muen_build::proofs::Checking::file_grows, muen_build::proofs::Looks::grows_not))]
fn content_refused<F: Files>(
    alloc: Global,
    given: &[Given<'_>],
    policy: &Resolved,
    thing: &Thing,
    seen: &mut Seq<SeenFile>,
    files: &mut F,
) -> Result<Option<Refusal>, LintError>
    ensures grows { IfOk result (λ _. SeesContent (given_files given.now) policy.now thing.now (F.held files.old) (F.history files.old) (F.history files.new) seen.old seen.new) }
    ensures told { IfOk result (λ refusal. WithGiven (given_files given.now) (seen_looks seen.new) (λ files. thing_refused policy.now thing.now files ≡ refusal)) }
    ensures err { IfErr result (StopsAtContent (given_files given.now) policy.now thing.now (F.held files.old) (F.history files.old) (F.history files.new) seen.old) }
    ensures held { F.held files.new ≡ F.held files.old }
{
    match policy.content(thing.content) {
        None | Some(Content::Zero) | Some(Content::Fill(_)) => Ok(None),
        Some(Content::Inline(bytes)) => Ok(fits(thing, bytes.len() as u64).err()),
        Some(
            Content::File {
                name: file,
                offset,
                length: most,
            },
        ) => {
            let length = length_of(alloc, given, *file, seen, files)?;
            Ok(file_refused(thing, *file, *offset, *most, length))
        }
    }
}

/// The refusals of all contents of a policy that are refused, by number.
#[tactic(auto, using(crate::proofs::ContentsTold::telling_first, crate::proofs::ContentsTold::telling_on, crate::proofs::ContentsTold::telling_stops, crate::proofs::ContentsTold::telling_full, crate::proofs::ContentsTold::telling_all))]
pub(crate) fn refused_contents<F: Files>(
    alloc: Global,
    given: &[Given<'_>],
    policy: &Lawful,
    files: &mut F,
) -> Result<Seq<Refusal>, LintError>
    ensures ok { IfOk result (TellsContents (given_files given.now) (source_of policy.now) (F.held files.old) (F.history files.old) (F.history files.new)) }
    ensures err { IfErr result (StopsLooking (given_files given.now) (IsAskedBy (names_file (source_of policy.now))) (F.held files.old) (F.history files.old) (F.history files.new) []) }
    ensures held { F.held files.new ≡ F.held files.old }
{
    let policy = policy.resolved();
    let mut seen = Seq::new(alloc);
    let mut refusals = Seq::new(alloc);
    for thing in policy.things() {
        if let Some(refusal) = content_refused(alloc, given, policy, thing, &mut seen, files)? {
            refusals.push(refusal)?;
        }
    }
    Ok(refusals)
}
