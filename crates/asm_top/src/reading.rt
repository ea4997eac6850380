//! The bytes that a source says, behind names if a file of them is named.
ghost use Rattle.std.specs.Prelude.{◌≡◌, ◌++◌, [], IfErr, IfOk};
ghost use Rattle.asm_text.specs.declared.fault.SourceFault.TheVariants.{At as AtPlace};
ghost use Rattle.asm_top.specs.Answers.{ended, line_feeds};
ghost use Rattle.asm_top.specs.Commands.{name_given};
ghost use Rattle.asm_top.specs.Reads.{Assembles, NotAssembled, Said, NotSaid};
ghost use Rattle.asm_top.specs.Refusals.{fault_text, refusal_text};

use crate::limits::SOURCE_MOST;
use crate::refusal::Refusal;
use asm_text::{SourceFault, Want, assemble};
use command_shell::{CommandError, read_file};
use muen_outside::Files;
use std::alloc::{AllocError, Global};

// How many line feeds a text has.
fn line_feeds(text: &[u8]) -> u64
    ensures { result ≡ line_feeds text.now }
{
    text.iter().filter(|c| **c == b'\n').count() as u64
}

// A text with a line feed behind it.
fn ended(alloc: Global, text: &[u8]) -> Result<Vec<u8>, AllocError>
    ensures { IfOk result (λ v. v.items ≡ ended text.now) }
{
    let mut ended = Vec::new(alloc);
    ended.extend_from_slice(text)?;
    ended.push(b'\n')?;
    Ok(ended)
}

// The fault at a place of a text whose first lines are those of names: the file whose line it is, and its number there.
fn refused_in<'a>(
    names: &'a str,
    source: &'a str,
    lines: u64,
    line: u64,
    column: u64,
    want: Want,
) -> Refusal<'a>
    ensures { refusal_text result ≡ fault_text (Some names.now) source.now lines (AtPlace line column want) }
{
    if line <= lines {
        Refusal::In {
            file: names,
            line,
            column,
            want,
        }
    } else {
        Refusal::In {
            file: source,
            line: line - lines,
            column,
            want,
        }
    }
}

// The bytes that a text says.
fn said_alone<'a>(
    alloc: Global,
    source: &'a str,
    text: &[u8],
) -> Result<Vec<u8>, CommandError<'a, Refusal<'a>>>
    ensures ok { IfOk result (λ v. Said text.now v.items) }
    ensures err { IfErr result (NotSaid None source.now [] text.now) }
{
    match assemble(alloc, text) {
        Ok(bytes) => Ok(bytes),
        Err(SourceFault::NoMemory) => Err(CommandError::NoMemory),
        Err(SourceFault::At { line, column, want }) => {
            Err(CommandError::Own(Refusal::Alone { line, column, want }))
        }
    }
}

// The bytes that a text says behind that of names.
fn said_behind<'a>(
    alloc: Global,
    names: &'a str,
    source: &'a str,
    first: &[u8],
    text: &[u8],
) -> Result<Vec<u8>, CommandError<'a, Refusal<'a>>>
    ensures ok { IfOk result (λ v. Said (ended first.now ++ text.now) v.items) }
    ensures err { IfErr result (NotSaid (Some names.now) source.now (ended first.now) text.now) }
{
    let Ok(mut whole) = ended(alloc, first) else {
        return Err(CommandError::NoMemory);
    };
    let lines = line_feeds(&whole);
    let Ok(()) = whole.extend_from_slice(text) else {
        return Err(CommandError::NoMemory);
    };
    match assemble(alloc, &whole) {
        Ok(bytes) => Ok(bytes),
        Err(SourceFault::NoMemory) => Err(CommandError::NoMemory),
        Err(SourceFault::At { line, column, want }) => Err(CommandError::Own(refused_in(
            names, source, lines, line, column, want,
        ))),
    }
}

// The bytes that the source of this file says.
fn read_alone<'a, F: Files>(
    alloc: Global,
    source: &'a str,
    files: &mut F,
) -> Result<Vec<u8>, CommandError<'a, Refusal<'a>>>
    ensures ok { IfOk result (λ v. Assembles None source.now (F.held files.old) (F.history files.old) (F.history files.new) v.items) }
    ensures err { IfErr result (NotAssembled None source.now (F.held files.old) (F.history files.old) (F.history files.new)) }
    ensures held { F.held files.new ≡ F.held files.old }
{
    let text = read_file(alloc, source, SOURCE_MOST, files)?;
    said_alone(alloc, source, text.items())
}

// .. behind the names of that one.
fn read_behind<'a, F: Files>(
    alloc: Global,
    names: &'a str,
    source: &'a str,
    files: &mut F,
) -> Result<Vec<u8>, CommandError<'a, Refusal<'a>>>
    ensures ok { IfOk result (λ v. Assembles (Some names.now) source.now (F.held files.old) (F.history files.old) (F.history files.new) v.items) }
    ensures err { IfErr result (NotAssembled (Some names.now) source.now (F.held files.old) (F.history files.old) (F.history files.new)) }
    ensures held { F.held files.new ≡ F.held files.old }
{
    let first = read_file(alloc, names, SOURCE_MOST, files)?;
    let behind = read_file(alloc, source, SOURCE_MOST, files)?;
    said_behind(alloc, names, source, first.items(), behind.items())
}

/// The bytes that the source of this file says, behind the names of another one if that is named.
pub(crate) fn read_source<'a, F: Files>(
    alloc: Global,
    names: Option<&'a str>,
    source: &'a str,
    files: &mut F,
) -> Result<Vec<u8>, CommandError<'a, Refusal<'a>>>
    ensures ok { IfOk result (λ v. Assembles (name_given names.entry) source.now (F.held files.old) (F.history files.old) (F.history files.new) v.items) }
    ensures err { IfErr result (NotAssembled (name_given names.entry) source.now (F.held files.old) (F.history files.old) (F.history files.new)) }
    ensures held { F.held files.new ≡ F.held files.old }
{
    match names {
        None => read_alone(alloc, source, files),
        Some(names) => read_behind(alloc, names, source, files),
    }
}
