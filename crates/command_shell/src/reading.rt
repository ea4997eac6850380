//! How commands read and write files: each in one call.
ghost use Rattle.std.specs.Prelude.{◌≡◌, IfErr, IfOk, Ok};
ghost use Rattle.muen_outside.specs.Store.{whole};
ghost use Rattle.command_shell.specs.Reads.{NotRead, Saw, WritesTo};

use crate::error::CommandError;
use muen_num::Seq;
use muen_outside::{FileError, Files, Found};
use std::alloc::Global;

/// The bytes of the file of this name, in one look, if there are no more than `most`.
pub fn read_file<'a, F: Files, R>(
    alloc: Global,
    name: &'a str,
    most: usize,
    files: &mut F,
) -> Result<Seq<u8>, CommandError<'a, R>>
    ensures ok { IfOk result (λ bytes. Saw name.now most (Ok (whole bytes)) (F.held files.old) (F.history files.old) (F.history files.new)) }
    ensures err { IfErr result (NotRead name.now most (F.held files.old) (F.history files.old) (F.history files.new)) }
    ensures held { F.held files.new ≡ F.held files.old }
{
    match files.read(alloc, name, most) {
        Ok(Found::Bytes(bytes)) => Ok(bytes),
        Ok(Found::Missing) => Err(CommandError::Missing(name)),
        Ok(Found::TooLong(length)) => Err(CommandError::TooLong(name, length)),
        Err(FileError::Failed) => Err(CommandError::FileFault),
        Err(FileError::NoMemory) => Err(CommandError::NoMemory),
    }
}

/// Puts the bytes under this name, in one write. On an error what stands under it may have changed.
pub fn write_file<'a, F: Files, R>(
    alloc: Global,
    name: &str,
    bytes: &[u8],
    files: &mut F,
) -> Result<(), CommandError<'a, R>>
    ensures { WritesTo name.now bytes.now (F.held files.old) (F.held files.new) (F.history files.old) (F.history files.new) result }
{
    match files.write(alloc, name, bytes) {
        Ok(()) => Ok(()),
        Err(FileError::Failed) => Err(CommandError::FileFault),
        Err(FileError::NoMemory) => Err(CommandError::NoMemory),
    }
}
