//! From a document to a policy that is accepted: it is read, its names are resolved, the rules are
//! checked, what it says of memory's contents is held against the room for it, and its regions are
//! placed. Each component file is read once. Then its image is made.
#![tactic(auto)]

ghost use Rattle.std.specs.Prelude.{◌≡◌, ℕ, IfOk, IfErr, List, None, Some, Ok};
ghost use Rattle.std.specs.FinMap as map;
ghost use Rattle.muen_num.specs.Answers.{Answers, Explains};
ghost use Rattle.muen_outside.specs.Store.{Store};
ghost use Rattle.policy_lawful.specs.Resolution.{kept_source, source_of};
ghost use Rattle.muen_build.specs.Accepting.{Accepts, AreAskedFor, FailsWith, HasContents, LacksContents, given_files, looks_of, placed_source};
ghost use Rattle.muen_build.specs.Looks.{Looked};
ghost use Rattle.muen_build.specs.Refusals.{laid_policy_of, lawful_policy_of};
ghost use Rattle.region_alloc.specs.Placement.{no_room};

mod accepted;
mod contents;
mod file_hash;
mod given;
mod image_bytes;
mod named;
mod things;

pub use accepted::{Accepted, BuildError, ComponentFiles};
use contents::read_contents;
pub use contents::{fits, part_length};
pub use given::{Given, given_bytes};
pub use image_bytes::{build, image, images_are_one};
use muen_num::Seq;
use muen_outside::Files;
pub use named::names_file;
use policy_lawful::{Lawful, Refusal};
use region_alloc::Placed;
use std::alloc::Global;
use things::things;

/// The policy of a document, where it keeps every rule.
///
/// Answers `NotJson` where the bytes are no JSON text, `Shape` with the first place that breaks the
/// schema, `Rule` with the least rule that is broken, and `NoMemory` where memory was refused. What
/// memory holds is not looked at.
pub fn lawful(alloc: Global, policy: &[u8]) -> Result<Lawful, Refusal>
    ensures { Answers Refusal.NoMemory (lawful_policy_of policy.now) (kept_source result) }
{
    let source = policy_json::read(alloc, policy)?;
    let resolved = policy_names::resolve(alloc, source)?;
    policy_rules::check(alloc, resolved)
}

/// The policy with all that follows from it and the addresses of its regions.
///
/// Answers `NoRoom` with the first region that has no room, and `NoMemory` where memory was refused.
pub fn place(alloc: Global, policy: Lawful) -> Result<Placed, Refusal>
    ensures ok { IfOk result (λ x. x.expanded.lawful ≡ policy) }
    ensures room { IfOk result (λ _. no_room (source_of policy) ≡ None) }
    ensures err { IfErr result (Explains Refusal.NoMemory (no_room (source_of policy))) }
{
    let expanded = expand_kernel::expand(alloc, policy)?;
    region_alloc::place(alloc, expanded)
}

/// The policy of a document with the addresses of its regions, where it keeps every rule and there
/// is room for them.
///
/// Answers as `lawful` does where a rule is broken or less; else `NoRoom` with the first region that
/// has no room, and `NoMemory` where memory was refused. What memory holds is not looked at.
pub fn lay(alloc: Global, policy: &[u8]) -> Result<Placed, Refusal>
    ensures { Answers Refusal.NoMemory (laid_policy_of policy.now) (placed_source result) }
{
    let policy = lawful(alloc, policy)?;
    place(alloc, policy)
}

/// What the regions of a policy that aren't the kernel's hold at the start, by number. The bytes that are
/// given stand for their names; each other file that a content names is looked at once, where the first
/// content names it, and nothing else is. Where regions lie is not asked.
///
/// # Errors
/// For the first region by number whose contents are refused: `Missing` where there is no file of a
/// content's name, `TooLong` where it is longer than `COMPONENT_FILE_MOST`, `FileFit` where what a content
/// takes is longer than its region. `FileFault` where the last look at files failed; `NoMemory` where
/// memory was refused.
pub fn contents_of<F: Files>(
    alloc: Global,
    given: &[Given<'_>],
    policy: &Lawful,
    files: &mut F,
) -> Result<Seq<Seq<u8>>, BuildError>
    ensures ok { IfOk result (HasContents (given_files given.now) policy.now (F.held files.old) (F.history files.old) (F.history files.new)) }
    ensures err { IfErr result (LacksContents (given_files given.now) (source_of policy.now) (F.held files.old) (F.history files.old) (F.history files.new)) }
    ensures held { F.held files.new ≡ F.held files.old }
{
    let found = read_contents(alloc, given, policy, files)?;
    let bytes = things(alloc, given, &found, policy.resolved())?;
    Ok(bytes)
}

/// The policy of a document with the addresses of its regions, where it keeps every rule, its
/// contents fit and there is room for it, and the component files that the contents name. These
/// bytes stand for the policy's name: where a content names that, they are its file. Each other
/// file is looked at once, where the first content names it, and nothing else is.
///
/// Answers as `lawful` does where it is refused for less; else for the first region by number:
/// `Missing` where there is no file of a content's name, `TooLong` where it is longer than
/// `COMPONENT_FILE_MOST`, `FileFit` where what a content takes is longer than its region; else
/// `NoRoom` with the first region that has no room. It answers `FileFault` where its last look at
/// files failed.
pub fn accept<F: Files>(
    alloc: Global,
    name: &str,
    document: &[u8],
    files: &mut F,
) -> Result<Accepted, BuildError>
    // It made the looks that read these files and no others, each at the file of the first content by number
    // that the looks before it leave open.
    ensures looked { IfOk result (λ a. Looked name.now (F.held files.old) (F.history files.old) (F.history files.new) (looks_of a.files)) }
    ensures asked { IfOk result (λ a. AreAskedFor name.now document.now (looks_of a.files)) }
    // In whatever files agree with its looks, with these bytes under the policy's name, the
    // document is accepted as this policy.
    ensures accepts { IfOk result (λ a. Accepts name.now (looks_of a.files) document.now (source_of a.placed.expanded.lawful)) }
    ensures lawful { IfOk result (λ a. lawful_policy_of document.now ≡ Ok (source_of a.placed.expanded.lawful)) }
    // In all of them it is refused so; or memory was refused, or the last look failed.
    ensures err { IfErr result (FailsWith name.now document.now (F.held files.old) (F.history files.old) (F.history files.new)) }
    ensures held { F.held files.new ≡ F.held files.old }
{
    let policy = lawful(alloc, document)?;
    let given = [Given {
        name,
        bytes: document,
    }];
    let files = read_contents(alloc, &given, &policy, files)?;
    let placed = place(alloc, policy)?;
    Ok(Accepted { placed, files })
}

/// Files in which these bytes stand under this name are the same with them put there. So what is
/// said of a document in its name's place is said of the files that hold it.
pub fn shown_document()
    ensures { (files : Store) (name document : List ℕ) → map.get files name ≡ Some document → map.insert files name document ≡ files }
{}
