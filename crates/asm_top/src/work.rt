//! The commands: what follows from the files that were read is put or written.
ghost use Rattle.std.specs.Prelude.{◌≡◌, IfSome, map, option_map, string_bytes};
ghost use Rattle.asm_listing.specs.Listing.{listing_of};
ghost use Rattle.asm_listing.specs.Source.{source_of};
ghost use Rattle.command_shell.specs.Calls.{ends};
ghost use Rattle.command_shell.specs.Outcomes.{ComesOf, ComesTo, PutsTo};
ghost use Rattle.muen_outside.specs.Looks.{HeldAfter, ShowAll, looks_since, writes_since};
ghost use Rattle.muen_outside.specs.States.{SinkState};
ghost use Rattle.asm_top.specs.Answers.{hex_text, plan_of};
ghost use Rattle.asm_top.specs.Calls.{IsCall, IsComplete};
ghost use Rattle.asm_top.specs.Commands.{bin, command_of, hex, lines, name_given, text};
ghost use Rattle.asm_top.specs.Refusals.{assembler};

use crate::command::{Command, program};
use crate::reading::read_source;
use crate::refusal::Refusal;
use crate::status::Status;
use asm_listing::{put_listing, put_source};
use command_shell::{CommandError, finish, read_file, write_file};
use muen_num::limits::COMPONENT_FILE_MOST;
use muen_outside::{Buffer, Files, Sink, SinkFault, put_pieces};
use std::alloc::Global;

// Puts the bytes in hexadecimal digits, and a line feed behind them.
fn put_hex<'a, S: Sink>(
    alloc: Global,
    bytes: &[u8],
    out: &mut S,
) -> Result<(), CommandError<'a, Refusal<'a>>>
    ensures { PutsTo (hex_text bytes.now) (S.state out.old) (S.state out.new) result }
{
    let Ok(digits) = hex::encode(alloc, bytes) else {
        return Err(CommandError::NoMemory);
    };
    match put_pieces(&[digits.as_str(), "\n"], out) {
        Ok(()) => Ok(()),
        Err(SinkFault) => Err(CommandError::OutputFault),
    }
}

// Puts the bytes as a listing, with addresses from this one on.
fn put_lines<'a, S: Sink>(
    alloc: Global,
    base: u64,
    bytes: &[u8],
    out: &mut S,
) -> Result<(), CommandError<'a, Refusal<'a>>>
    ensures { PutsTo (listing_of base bytes.now) (S.state out.old) (S.state out.new) result }
{
    let Ok(mut buffer) = Buffer::make(alloc) else {
        return Err(CommandError::NoMemory);
    };
    match put_listing(base, bytes, &mut buffer, out) {
        Ok(()) => Ok(()),
        Err(SinkFault) => Err(CommandError::OutputFault),
    }
}

// Puts a source of the bytes.
fn put_text<'a, S: Sink>(
    alloc: Global,
    bytes: &[u8],
    out: &mut S,
) -> Result<(), CommandError<'a, Refusal<'a>>>
    ensures { PutsTo (source_of bytes.now) (S.state out.old) (S.state out.new) result }
{
    let Ok(mut buffer) = Buffer::make(alloc) else {
        return Err(CommandError::NoMemory);
    };
    match put_source(bytes, &mut buffer, out) {
        Ok(()) => Ok(()),
        Err(SinkFault) => Err(CommandError::OutputFault),
    }
}

// Prints a source's bytes in hexadecimal digits.
fn print_hex<'a, F: Files, S: Sink>(
    alloc: Global,
    names: Option<&'a str>,
    source: &'a str,
    files: &mut F,
    out: &mut S,
) -> Result<(), CommandError<'a, Refusal<'a>>>
    ensures { ComesTo assembler (plan_of (hex (name_given names.entry) source.now)) (F.held files.old) (F.held files.new) (F.history files.old) (F.history files.new) (S.state out.old) (S.state out.new) result }
{
    match read_source(alloc, names, source, files) {
        Ok(bytes) => put_hex(alloc, &bytes, out),
        Err(error) => Err(error),
    }
}

// Prints a source's bytes as a listing, with addresses from this one on.
fn print_lines<'a, F: Files, S: Sink>(
    alloc: Global,
    names: Option<&'a str>,
    source: &'a str,
    base: u64,
    files: &mut F,
    out: &mut S,
) -> Result<(), CommandError<'a, Refusal<'a>>>
    ensures { ComesTo assembler (plan_of (lines (name_given names.entry) source.now base)) (F.held files.old) (F.held files.new) (F.history files.old) (F.history files.new) (S.state out.old) (S.state out.new) result }
{
    match read_source(alloc, names, source, files) {
        Ok(bytes) => put_lines(alloc, base, &bytes, out),
        Err(error) => Err(error),
    }
}

// Writes a source's bytes under a file's name.
fn write_bin<'a, F: Files>(
    alloc: Global,
    names: Option<&'a str>,
    source: &'a str,
    file: &'a str,
    files: &mut F,
) -> Result<(), CommandError<'a, Refusal<'a>>>
    ensures { (out : SinkState) → ComesTo assembler (plan_of (bin (name_given names.entry) source.now file.now)) (F.held files.old) (F.held files.new) (F.history files.old) (F.history files.new) out out result }
{
    match read_source(alloc, names, source, files) {
        Ok(bytes) => write_file(alloc, file, &bytes, files),
        Err(error) => Err(error),
    }
}

// Prints a source of a file's bytes.
fn print_text<'a, F: Files, S: Sink>(
    alloc: Global,
    file: &'a str,
    files: &mut F,
    out: &mut S,
) -> Result<(), CommandError<'a, Refusal<'a>>>
    ensures { ComesTo assembler (plan_of (text file.now)) (F.held files.old) (F.held files.new) (F.history files.old) (F.history files.new) (S.state out.old) (S.state out.new) result }
{
    match read_file(alloc, file, COMPONENT_FILE_MOST, files) {
        Ok(bytes) => put_text(alloc, bytes.items(), out),
        Err(error) => Err(error),
    }
}

// Does what the words ask for.
#[tactic(auto, using(crate::proofs::Ending::command_as))]
fn work<'a, F: Files, S: Sink>(
    alloc: Global,
    words: &'a [String],
    files: &mut F,
    out: &mut S,
) -> Result<(), CommandError<'a, Refusal<'a>>>
    ensures { ComesOf assembler (option_map plan_of (command_of (map string_bytes words.now))) (F.held files.old) (F.held files.new) (F.history files.old) (F.history files.new) (S.state out.old) (S.state out.new) result }
{
    match Command::parse(words) {
        None => Err(CommandError::Usage),
        Some(Command::Hex { names, source }) => print_hex(alloc, names, source, files, out),
        Some(
            Command::Lines {
                names,
                source,
                base,
            },
        ) => print_lines(alloc, names, source, base, files, out),
        Some(
            Command::Bin {
                names,
                source,
                file,
            },
        ) => write_bin(alloc, names, source, file, files),
        Some(Command::Text(file)) => print_text(alloc, file, files, out),
    }
}

/// Does what the words ask for, tells how it ended, and answers its status.
pub(crate) fn call<F: Files, S: Sink, E: Sink>(
    alloc: Global,
    words: &[String],
    files: &mut F,
    out: &mut S,
    err: &mut E,
) -> Status
    ensures call { IsCall (map string_bytes words.now) (ends (F.history files.old) (F.history files.new) (S.state out.old) (S.state out.new) (E.state err.old) (E.state err.new) result) }
    ensures complete { IsComplete (map string_bytes words.now) (ends (F.history files.old) (F.history files.new) (S.state out.old) (S.state out.new) (E.state err.old) (E.state err.new) result) }
    ensures agrees { IfSome (F.held files.old) (λ m. ShowAll m (looks_since (F.history files.old) (F.history files.new))) }
    ensures held { HeldAfter (writes_since (F.history files.old) (F.history files.new)) (F.held files.old) (F.held files.new) }
{
    let outcome = work(alloc, words, files, out);
    finish(&program(), &outcome, err)
}
