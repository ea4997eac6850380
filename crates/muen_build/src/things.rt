//! What a policy's regions hold, made of the files that were read.
ghost use Rattle.std.specs.Prelude.{◌≡◌, IfOk, replicate};
ghost use Rattle.muen_build.specs.Accepting.{given_files, thing_content};
ghost use Rattle.muen_build.specs.Reading.{content_read, read_bytes, sized, things_read};
ghost use Rattle.policy_lawful.specs.Contents.{file_part};
ghost use Rattle.policy_lawful.specs.Resolution.{source_of};
ghost use Rattle.policy_lawful.specs.Thing.{placed_items};
ghost use Rattle.policy_lawful.specs.Things.{AreDeclared, placed_things};

use crate::accepted::ComponentFiles;
use crate::given::{Given, given_bytes};
use muen_num::{Name, NoMemory, Seq};
use policy_lawful::source::Content;
use policy_lawful::{Resolved, Thing};
use std::alloc::{AllocError, Global};

// So many bytes of this value.
fn filled(alloc: Global, size: u64, byte: u8) -> Result<Seq<u8>, AllocError>
    ensures { IfOk result (λ bytes. bytes ≡ replicate size byte) }
{
    let bytes = vec![in alloc; byte; size as usize]?;
    Ok(Seq::of(bytes))
}

// These bytes in a room of so many, with zeros behind them.
fn sized(alloc: Global, size: u64, bytes: &[u8]) -> Result<Seq<u8>, AllocError>
    ensures { IfOk result (λ all. all ≡ sized size bytes.now) }
{
    let mut all = Vec::with_capacity(alloc, size as usize)?;
    all.extend_from_slice(bytes)?;
    all.resize(size as usize, 0)?;
    Ok(Seq::of(all))
}

// What a content takes of a file's bytes: those from an offset on, at most so many.
fn part(bytes: &[u8], offset: u64, most: Option<u64>) -> &[u8]
    ensures { result.now ≡ file_part offset most bytes.now }
{
    let start = bytes.len().min(offset as usize);
    let rest = &bytes[start..];
    match most {
        None => rest,
        Some(most) => &rest[..rest.len().min(most as usize)],
    }
}

// The bytes of a file: those that are given under its name, else those that were read.
fn file_bytes<'a>(given: &[Given<'a>], found: &'a ComponentFiles, file: Name) -> &'a [u8]
    ensures { result.now ≡ read_bytes (given_files given.now) found.now file }
{
    if let Some(bytes) = given_bytes(given, file) {
        return bytes;
    }
    match found.bytes(file) {
        None => &[],
        Some(bytes) => bytes,
    }
}

// The bytes of a thing.
fn content(
    alloc: Global,
    given: &[Given<'_>],
    found: &ComponentFiles,
    policy: &Resolved,
    thing: &Thing,
) -> Result<Seq<u8>, AllocError>
    ensures { IfOk result (λ bytes. bytes ≡ content_read (given_files given.now) found.now thing.now.size (thing_content policy.now thing.now)) }
{
    let size = thing.size;
    let Some(content) = policy.content(thing.content) else {
        return filled(alloc, size, 0);
    };
    match content {
        Content::Zero => filled(alloc, size, 0),
        Content::Fill(byte) => filled(alloc, size, *byte),
        Content::Inline(bytes) => sized(alloc, size, bytes.items()),
        Content::File {
            name: file,
            offset,
            length,
        } => {
            let bytes = file_bytes(given, found, *file);
            sized(alloc, size, part(bytes, *offset, *length))
        }
    }
}

/// The bytes of a policy's regions that aren't the kernel's, by number. Each has as many bytes as its
/// size says. The files that aren't given were found.
pub(crate) fn things(
    alloc: Global,
    given: &[Given<'_>],
    found: &ComponentFiles,
    policy: &Resolved,
) -> Result<Seq<Seq<u8>>, NoMemory>
    ensures things { IfOk result (λ things. things ≡ things_read (given_files given.now) found.now (source_of policy.now)) }
    ensures declared { IfOk result (λ _. AreDeclared policy.now (placed_items (source_of policy.now)) (placed_things policy.now)) }
{
    let mut things = Vec::new(alloc);
    for thing in policy.placed_things() {
        things.push(content(alloc, given, found, policy, thing)?)?;
    }
    Ok(Seq::of(things))
}
