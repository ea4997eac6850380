//! Contents, held against the room for them, and the files that they name.
ghost use Rattle.std.specs.Prelude.{◌≡◌, ◌<◌, ◌≤◌, [], IfOk, IfErr, None, Ok, length};
ghost use Rattle.std.specs.Str.{bytes_eq};
ghost use Rattle.muen_num.specs.Search.{as_refusal};
ghost use Rattle.muen_outside.specs.Store.{find_bytes, whole};
ghost use Rattle.policy_lawful.specs.Resolution.{source_of};
ghost use Rattle.muen_build.specs.Accepting.{ComponentFileNotRead, Grows, IsAdded, IsAskedBy, IsLengthKnown, IsNext, GrowsByThing, LooksAt, NotFound, Passes, StopsAfterLooks, StopsAtContents, StopsAtThing, given_files, looks_of, part_length, thing_refused};
ghost use Rattle.muen_build.specs.Refusals.{contents_refused, too_long_for};
ghost use Rattle.muen_build.specs.declared.accepted.BuildError.TheVariants.{Refused};
ghost use Rattle.policy_lawful.specs.refusal.Refusal.TheVariants.{TooLong};

use crate::accepted::{BuildError, ComponentFiles};
use crate::file_hash::hash_of_files;
use crate::given::{Given, given_bytes};
use muen_num::limits::COMPONENT_FILE_MOST;
use muen_num::{Name, Seq};
use muen_outside::{FileError, Files, Found};
use policy_lawful::source::Content;
use policy_lawful::{Lawful, Refusal, Resolved, Thing};
use std::alloc::Global;

/// That so many bytes have room in the region of a thing. Answers `FileFit` where they are more.
pub fn fits(thing: &Thing, count: u64) -> Result<(), Refusal>
    ensures { result ≡ as_refusal (too_long_for thing.now.tag thing.now.size count) }
{
    if count <= thing.size {
        return Ok(());
    }
    Err(Refusal::FileFit {
        region: thing.tag,
        room: thing.size,
        length: count,
    })
}

/// How many of so many bytes a content takes: those from an offset on, at most so many.
pub fn part_length(count: u64, offset: u64, most: Option<u64>) -> u64
    ensures { result ≡ part_length count offset most }
{
    let rest = count.saturating_sub(offset);
    match most {
        None => rest,
        Some(most) => rest.min(most),
    }
}

// The bytes of a component file.
fn read<F: Files>(alloc: Global, file: Name, files: &mut F) -> Result<Seq<u8>, BuildError>
    ensures ok { IfOk result (λ bytes. LooksAt file (Ok (whole bytes)) (F.held files.old) (F.history files.old) (F.history files.new)) }
    ensures err { IfErr result (ComponentFileNotRead file (F.held files.old) (F.history files.old) (F.history files.new)) }
    ensures held { F.held files.new ≡ F.held files.old }
{
    match files.read(alloc, file.as_str(), COMPONENT_FILE_MOST) {
        Ok(Found::Bytes(bytes)) => Ok(bytes),
        Ok(Found::Missing) => Err(BuildError::Refused(Refusal::Missing { file })),
        Ok(Found::TooLong(length)) => Err(BuildError::Refused(Refusal::TooLong { file, length })),
        Err(FileError::Failed) => Err(BuildError::FileFault),
        Err(FileError::NoMemory) => Err(BuildError::Refused(Refusal::NoMemory)),
    }
}

// How many bytes a file has that wasn't read before; it is kept.
fn read_new<F: Files>(
    alloc: Global,
    file: Name,
    found: &mut ComponentFiles,
    files: &mut F,
) -> Result<u64, BuildError>
    requires { find_bytes file found.old ≡ None }
    ensures ok { IfOk result (λ count. IsAdded file found.old found.new count (F.held files.old) (F.history files.old) (F.history files.new)) }
    ensures err { IfErr result (ComponentFileNotRead file (F.held files.old) (F.history files.old) (F.history files.new)) }
    ensures held { F.held files.new ≡ F.held files.old }
{
    let bytes = read(alloc, file, files)?;
    let count = bytes.len() as u64;
    found.add(file, bytes)?;
    Ok(count)
}

// How many bytes these are, where they stand for a component file of this name.
fn own_length(file: Name, bytes: &[u8]) -> Result<u64, BuildError>
    ensures ok { IfOk result (λ count. (count ≡ length bytes.now) × (count ≤ COMPONENT_FILE_MOST)) }
    ensures err { IfErr result (λ error. (error ≡ Refused (TooLong file (length bytes.now))) × (COMPONENT_FILE_MOST < length bytes.now)) }
{
    let length = bytes.len();
    if length > COMPONENT_FILE_MOST {
        return Err(BuildError::Refused(Refusal::TooLong {
            file,
            length: length as u64,
        }));
    }
    Ok(length as u64)
}

// How many bytes the file of a content has: those that are given under its name, else those of the
// file, which is read where it wasn't before. Given bytes that are more than a component file may
// have are none.
fn file_length<F: Files>(
    alloc: Global,
    given: &[Given<'_>],
    file: Name,
    found: &mut ComponentFiles,
    files: &mut F,
) -> Result<u64, BuildError>
    ensures grows { IfOk result (λ _. Grows (given_files given.now) (IsAskedBy (bytes_eq file)) (F.held files.old) (F.history files.old) (F.history files.new) (looks_of found.old) (looks_of found.new)) }
    ensures known { IfOk result (IsLengthKnown (given_files given.now) (looks_of found.new) file) }
    ensures err { IfErr result (StopsAfterLooks (given_files given.now) (IsAskedBy (bytes_eq file)) (F.held files.old) (F.history files.old) (F.history files.new) (looks_of found.old) (NotFound file)) }
    ensures held { F.held files.new ≡ F.held files.old }
{
    if let Some(bytes) = given_bytes(given, file) {
        return own_length(file, bytes);
    }
    match found.length(file) {
        Some(length) => Ok(length as u64),
        None => read_new(alloc, file, found, files),
    }
}

// Holds the content of a thing against its room.
fn check<F: Files>(
    alloc: Global,
    given: &[Given<'_>],
    policy: &Resolved,
    thing: &Thing,
    found: &mut ComponentFiles,
    files: &mut F,
) -> Result<(), BuildError>
    ensures grows { IfOk result (λ _. GrowsByThing (given_files given.now) policy.now thing.now (F.held files.old) (F.history files.old) (F.history files.new) (looks_of found.old) (looks_of found.new)) }
    ensures passes { IfOk result (λ _. Passes (given_files given.now) (looks_of found.new) (thing_refused policy.now thing.now)) }
    ensures err { IfErr result (StopsAtThing (given_files given.now) policy.now thing.now (F.held files.old) (F.history files.old) (F.history files.new) (looks_of found.old)) }
    ensures held { F.held files.new ≡ F.held files.old }
{
    let Some(content) = policy.content(thing.content) else {
        return Ok(());
    };
    match content {
        Content::Zero | Content::Fill(_) => Ok(()),
        Content::Inline(bytes) => Ok(fits(thing, bytes.len() as u64)?),
        Content::File {
            name: file,
            offset,
            length,
        } => {
            let count = file_length(alloc, given, *file, found, files)?;
            Ok(fits(thing, part_length(count, *offset, *length))?)
        }
    }
}

/// The component files that the contents of a policy name, which have room in their regions. Contents
/// are held against it by number, and a file is looked at once all before it fit.
pub(crate) fn read_contents<F: Files>(
    alloc: Global,
    given: &[Given<'_>],
    policy: &Lawful,
    files: &mut F,
) -> Result<ComponentFiles, BuildError>
    ensures grows { IfOk result (λ found. Grows (given_files given.now) (IsNext (given_files given.now) (source_of policy.now)) (F.held files.old) (F.history files.old) (F.history files.new) [] (looks_of found)) }
    ensures passes { IfOk result (λ found. Passes (given_files given.now) (looks_of found) (λ files. contents_refused files (source_of policy.now))) }
    ensures err { IfErr result (StopsAtContents (given_files given.now) (source_of policy.now) (F.held files.old) (F.history files.old) (F.history files.new)) }
    ensures held { F.held files.new ≡ F.held files.old }
{
    let policy = policy.resolved();
    let mut found = ComponentFiles::new(alloc, hash_of_files(policy));
    for thing in policy.things() {
        check(alloc, given, policy, thing, &mut found, files)?;
    }
    Ok(found)
}
