// How a command reads its files.
ghost use Rattle.std.specs.Prelude.{◌≡◌, [], ◌∷◌, List, Some, Ok, IfOk, IfErr, option_map};
ghost use Rattle.muen_outside.specs.States.{Look, look};
ghost use Rattle.muen_outside.specs.Store.{reading_of, whole};
ghost use Rattle.muen_top.specs.FilesSeen.{Saw};
ghost use Rattle.muen_top.specs.Loads.{IsKnown, NotRead, NotReadAfter, NotWithin, ReadAfter};

use crate::outcome::CommandError;
use muen_num::{NoMemory, Seq};
use muen_outside::{FileError, Files, Found};
use std::alloc::Global;

/// The bytes of a file, in one look.
pub(crate) fn load<'a, F: Files>(
    alloc: Global,
    name: &'a str,
    most: usize,
    files: &mut F,
) -> Result<Seq<u8>, CommandError<'a>>
    ensures ok { IfOk result (λ bytes. Saw (F.held files.old) (F.history files.old) (F.history files.new) (look name.now most (Ok (whole bytes)) ∷ [])) }
    ensures err { IfErr result (NotRead name.now most (F.held files.old) (F.history files.old) (F.history files.new)) }
    ensures held { F.held files.new ≡ F.held files.old }
{
    match files.read(alloc, name, most) {
        Ok(Found::Bytes(bytes)) => Ok(bytes),
        Ok(Found::Missing) => Err(CommandError::Missing(name)),
        Ok(Found::TooLong(n)) => Err(CommandError::TooLong(name, n)),
        Err(FileError::Failed) => Err(CommandError::FileFault),
        Err(FileError::NoMemory) => Err(CommandError::NoMemory),
    }
}

/// The bytes that were read of this file, if there are no more than `most`.
pub(crate) fn within<'a>(
    bytes: Seq<u8>,
    name: &'a str,
    most: usize,
) -> Result<Seq<u8>, CommandError<'a>>
    ensures ok { IfOk result (λ found. whole found ≡ reading_of (Some bytes) most) }
    ensures err { IfErr result (NotWithin name.now bytes most) }
{
    let length = bytes.len();
    if length <= most {
        return Ok(bytes);
    }
    Err(CommandError::TooLong(name, length as u64))
}

// The bytes of a file, copied.
fn copy(alloc: Global, bytes: &[u8]) -> Result<Seq<u8>, NoMemory>
    ensures { IfOk result (λ copied. whole copied ≡ whole bytes.now) }
{
    let mut copied = Vec::with_capacity(alloc, bytes.len())?;
    copied.extend_from_slice(bytes)?;
    Ok(Seq::of(copied))
}

/// The bytes of a file, after other files. What was read under its name before, whatever the limit was with
/// which it was read, stands for it, and no second look is made.
pub(crate) fn load_too<'a, F: Files>(
    alloc: Global,
    known: Option<&[u8]>,
    name: &'a str,
    most: usize,
    files: &mut F,
) -> Result<Seq<u8>, CommandError<'a>>
    ensures ok { (looks : List Look) → IsKnown looks name.now (option_map (λ b. b.now) known.entry) → IfOk result (ReadAfter looks name.now most (F.held files.old) (F.history files.old) (F.history files.new)) }
    ensures err { (looks : List Look) → IsKnown looks name.now (option_map (λ b. b.now) known.entry) → IfErr result (NotReadAfter looks name.now most (F.held files.old) (F.history files.old) (F.history files.new)) }
    ensures held { F.held files.new ≡ F.held files.old }
{
    match known {
        Some(bytes) => within(copy(alloc, bytes)?, name, most),
        None => load(alloc, name, most, files),
    }
}
