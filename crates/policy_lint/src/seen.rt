//! Component files that were looked at, with what was found.
ghost use Rattle.std.specs.Prelude.{◌≡◌, IfErr, IfOk, None, Some, option_map};
ghost use Rattle.muen_build.specs.Accepting.{given_files};
ghost use Rattle.muen_num.specs.declared.limits.TheConstants.{COMPONENT_FILE_MOST as most_bytes};
ghost use Rattle.muen_outside.specs.Found.{seen};
ghost use Rattle.muen_outside.specs.Store.{reading_of};
ghost use Rattle.policy_lint.specs.Seen.{HasLength, IsSeen, LookFails, SeesFile, StopsAtFile, found_among, length_read, seen_looks};

use crate::error::LintError;
use muen_build::{Given, given_bytes};
use muen_num::limits::COMPONENT_FILE_MOST;
use muen_num::{Name, Seq};
use muen_outside::{Files, Found};
use std::alloc::Global;

/// A component file that was looked at.
#[derive(Drop)]
pub struct SeenFile {
    pub name: Name,
    pub found: Found,
}

/// How many bytes a component file has, if there is one; or how many more than it may have.
#[derive(Clone, Copy, Debug)]
pub enum FileLength {
    Bytes(u64),
    Missing,
    TooLong(u64),
}

impl FileLength {
    // Of a file that was looked at.
    fn of_found(found: &Found) -> FileLength
        ensures { result ≡ length_read (seen found.now) }
    {
        match found {
            Found::Bytes(bytes) => FileLength::Bytes(bytes.len() as u64),
            Found::Missing => FileLength::Missing,
            Found::TooLong(length) => FileLength::TooLong(*length),
        }
    }

    // Of these bytes.
    fn of_bytes(bytes: &[u8]) -> FileLength
        ensures { result ≡ length_read (reading_of (Some bytes.now) most_bytes) }
    {
        let length = bytes.len() as u64;
        if bytes.len() > COMPONENT_FILE_MOST {
            return FileLength::TooLong(length);
        }
        FileLength::Bytes(length)
    }
}

// What was found under a name, if it was looked at.
fn found_among(others: &[SeenFile], file: Name) -> Option<FileLength>
    ensures { result ≡ option_map (λ found. length_read (seen found)) (found_among file others.now) }
{
    for other in others {
        if file == other.name {
            return Some(FileLength::of_found(&other.found));
        }
    }
    None
}

// Looks at a file that wasn't looked at before.
#[tactic(auto, using(crate::proofs::FilesLooked::look_says))]
fn look<F: Files>(
    alloc: Global,
    file: Name,
    seen: &mut Seq<SeenFile>,
    files: &mut F,
) -> Result<FileLength, LintError>
    requires { found_among file seen.old ≡ None }
    ensures ok { IfOk result (λ length. IsSeen file length seen.old seen.new (F.held files.old) (F.history files.old) (F.history files.new)) }
    ensures err { IfErr result (LookFails file (F.held files.old) (F.history files.old) (F.history files.new)) }
    ensures held { F.held files.new ≡ F.held files.old }
{
    let found = files.read(alloc, file.as_str(), COMPONENT_FILE_MOST)?;
    let length = FileLength::of_found(&found);
    seen.push(SeenFile { name: file, found })?;
    Ok(length)
}

/// How many bytes the component file of a name has: those that are given under its name, else those
/// of the file, at which a look is made where none was before.
#[tactic(auto, using(crate::proofs::FilesLooked::given_length, crate::proofs::FilesLooked::not_seen, crate::proofs::FilesLooked::seen_length, crate::proofs::FilesLooked::seen_grows, crate::proofs::FilesLooked::seen_known, crate::proofs::FilesLooked::seen_stops))]
pub(crate) fn length_of<F: Files>(
    alloc: Global,
    given: &[Given<'_>],
    file: Name,
    seen: &mut Seq<SeenFile>,
    files: &mut F,
) -> Result<FileLength, LintError>
    ensures grows { IfOk result (λ _. SeesFile (given_files given.now) file (F.held files.old) (F.history files.old) (F.history files.new) seen.old seen.new) }
    ensures known { IfOk result (λ length. HasLength (given_files given.now) (seen_looks seen.new) file length) }
    ensures err { IfErr result (StopsAtFile (given_files given.now) file (F.held files.old) (F.history files.old) (F.history files.new) seen.old) }
    ensures held { F.held files.new ≡ F.held files.old }
{
    if let Some(bytes) = given_bytes(given, file) {
        return Ok(FileLength::of_bytes(bytes));
    }
    match found_among(seen.items(), file) {
        Some(length) => Ok(length),
        None => look(alloc, file, seen, files),
    }
}
