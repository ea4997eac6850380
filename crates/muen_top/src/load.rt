// The command `load`: the system that is generated of a number is booted in memory, and what the text of its
// run comes to is printed.
ghost use Rattle.std.specs.Prelude.{◌≡◌, Ok, IfOk, length, string_bytes};
ghost use Rattle.hex.specs.Hex.{encode_lower};
ghost use Rattle.sha2.specs.Sha256.{sha256};
ghost use Rattle.generated_system.specs.Record.{generated_record};
ghost use Rattle.generated_system.specs.System.{generated_system};
ghost use Rattle.muen_build.specs.Document.{policy_of};
ghost use Rattle.muen_outside.specs.Puts.{Puts};
ghost use Rattle.muen_run.specs.RunText.{run_text as run_text_of};
ghost use Rattle.policy_lawful.specs.Contents.{no_files};
ghost use Rattle.record_text.specs.Law.{IsOrderly};
ghost use Rattle.subject_model.specs.Trace.{trace_of};
ghost use Rattle.muen_top.specs.LoadText.{load_text, summary};
ghost use Rattle.muen_top.specs.Loads.{IsMadeOf};
ghost use Rattle.muen_top.specs.Runs.{OnlyMemory, RunsTo};

use crate::boot::{Made, make};
use crate::outcome::{CommandError, Outcome};
use crate::run::{Loaded, run_image};
use generated_system::{Generated, generate};
use image_load::read_record;
use itoa::Buffer;
use muen_num::NoMemory;
use muen_outside::{GrowingSink, MemFiles, Sink, SinkFault, put_pieces};
use sha2::{Digest, Sha256};
use std::alloc::Global;

// How many ticks a generated record has.
const TICKS: u32 = 20_000;

// Under which name messages would tell of the document; no file has it.
const POLICY: &str = "policy";

// The error of a call for which memory alone can be wanting.
fn only_memory(error: CommandError<'_>) -> NoMemory
    requires { OnlyMemory error }
{
    match error {
        CommandError::NoMemory => NoMemory,
        _ => unreachable!(),
    }
}

// The image of the system that this document has, and its tables. Its contents name no file, so none is looked at.
fn made(alloc: Global, number: u16, document: &[u8]) -> Result<Made, NoMemory>
    requires { policy_of document.now ≡ Ok (generated_system number) }
    ensures { IfOk result (IsMadeOf (generated_system number)) }
{
    let mut files = MemFiles::make(Vec::new(alloc), Vec::new(alloc));
    match make(alloc, POLICY, document, &mut files) {
        Ok(made) => Ok(made),
        Err(error) => Err(only_memory(error)),
    }
}

// What is run of the system that is generated of a number. It is accepted, and its record is read: so memory
// alone can be wanting.
fn loaded(alloc: Global, number: u16) -> Result<Loaded, NoMemory>
    ensures text { IfOk result (λ x. run_text_of x.tables x.parts x.input ≡ trace_of (generated_system number) no_files (generated_record number)) }
    ensures orderly { IfOk result (λ x. IsOrderly x.input) }
{
    let Generated { policy, input } = generate(alloc, number)?;
    let Made { parts, tables, .. } = made(alloc, number, &policy)?;
    match read_record(alloc, &parts, &input) {
        Ok(input) => Ok(Loaded {
            parts,
            input,
            tables: Some(tables),
        }),
        Err(fault) => Err(only_memory(CommandError::from(fault))),
    }
}

// The text of that system's run on that record. It goes into memory that grows with it, and is never full: so
// memory alone can be wanting here too.
fn run_text(alloc: Global, number: u16) -> Result<GrowingSink, NoMemory>
    ensures { IfOk result (λ s. s.given ≡ trace_of (generated_system number) no_files (generated_record number)) }
{
    let loaded = loaded(alloc, number)?;
    let mut text = GrowingSink::new(alloc);
    match run_image(alloc, loaded, &mut text) {
        Outcome::Done => Ok(text),
        Outcome::Stopped(_) | Outcome::OutputFault => Err(NoMemory),
    }
}

// The digest of a text, in hexadecimal digits.
fn digest(alloc: Global, text: &[u8]) -> Result<String, NoMemory>
    ensures { IfOk result (λ s. string_bytes s ≡ encode_lower (sha256 text.now)) }
{
    Ok(hex::encode(alloc, Sha256::digest(text))?)
}

// Two subjects on each of the CPUs, of which there are one to four.
#[tactic(auto, using(crate::proofs::GeneratedRuns::many_subjects))]
fn subjects_of(number: u16) -> u16
    ensures { result ≡ length (generated_system number).subjects }
{
    2 * (1 + number % 4)
}

// Prints how many subjects and ticks there are, and what a text comes to.
fn put_summary<S: Sink>(
    number: u16,
    text: &[u8],
    digest: &str,
    out: &mut S,
) -> Result<(), SinkFault>
    requires { digest.now ≡ encode_lower (sha256 text.now) }
    ensures { Puts (summary (length (generated_system number).subjects) (generated_record number).end text.now) (S.state out.old) (S.state out.new) result }
{
    let mut subjects = Buffer::new();
    let mut ticks = Buffer::new();
    let mut length = Buffer::new();
    put_pieces(
        &[
            "subjects ",
            subjects.format(subjects_of(number)),
            "\nticks ",
            ticks.format(TICKS),
            "\ntrace ",
            length.format(text.len()),
            "\nsha256 ",
            digest,
            "\n",
        ],
        out,
    )
}

// The text of the run, and its digest.
fn summed_up(alloc: Global, number: u16) -> Result<(GrowingSink, String), NoMemory>
    ensures { IfOk result (λ x. (x.0.given ≡ trace_of (generated_system number) no_files (generated_record number)) × (string_bytes x.1 ≡ encode_lower (sha256 x.0.given))) }
{
    let text = run_text(alloc, number)?;
    let digest = digest(alloc, text.text())?;
    Ok((text, digest))
}

/// Runs the system that is generated of a number, and prints what comes of it.
#[tactic(auto, unfolding(crate::specs::LoadText::load_text))]
pub(crate) fn load<'a, S: Sink>(alloc: Global, number: u16, out: &mut S) -> Outcome<'a>
    ensures { RunsTo (load_text number) (S.state out.old) (S.state out.new) result }
{
    let (text, digest) = match summed_up(alloc, number) {
        Ok(summed_up) => summed_up,
        Err(NoMemory) => return Outcome::Stopped(CommandError::NoMemory),
    };
    match put_summary(number, text.text(), &digest, out) {
        Ok(()) => Outcome::Done,
        Err(SinkFault) => Outcome::OutputFault,
    }
}
