//! The command `lines`: an image, tables and a record are read, and what each line of direct memory access did
//! is printed.
ghost use Rattle.std.specs.Prelude.{◌≡◌, Some, IfErr, IfOk};
ghost use Rattle.command_shell.specs.Outcomes.{ComesTo, PutsTo};
ghost use Rattle.dma_lines.specs.LinesText.{lines_text};
ghost use Rattle.dma_top.specs.Answers.{lines_plan};
ghost use Rattle.dma_top.specs.Reads.{EndsFor, IsToPrint};
ghost use Rattle.dma_top.specs.Refusals.{devices};

use crate::reading::{read_image, read_inputs, read_tables};
use crate::refusal::Refusal;
use command_shell::CommandError;
use dma_lines::lines_text;
use dma_tables::DmaTables;
use image_pack::Parts;
use muen_outside::{Buffer, Files, Sink, SinkFault};
use record_text::{Input, Record};
use std::alloc::Global;

// An image, tables, and a record for the image.
#[derive(Drop)]
struct Recorded {
    image: Parts,
    tables: DmaTables,
    inputs: Record<Input>,
}

// Those of these files.
fn read_recorded<'a, F: Files>(
    alloc: Global,
    image: &'a str,
    inputs: &'a str,
    tables: &'a str,
    files: &mut F,
) -> Result<Recorded, CommandError<'a, Refusal>>
    ensures ok { IfOk result (λ x. IsToPrint (lines_plan image.now inputs.now tables.now) (lines_text (Some x.tables) x.image x.inputs) (F.held files.old) (F.history files.old) (F.history files.new)) }
    ensures err { IfErr result (EndsFor (lines_plan image.now inputs.now tables.now) (F.held files.old) (F.history files.old) (F.history files.new)) }
    ensures held { F.held files.new ≡ F.held files.old }
{
    let image = read_image(alloc, image, files)?;
    let tables = read_tables(alloc, tables, files)?;
    let inputs = read_inputs(alloc, &image, inputs, files)?;
    Ok(Recorded {
        image,
        tables,
        inputs,
    })
}

fn put_lines<'a, S: Sink>(
    alloc: Global,
    recorded: &Recorded,
    out: &mut S,
) -> Result<(), CommandError<'a, Refusal>>
    ensures { PutsTo (lines_text (Some recorded.now.tables) recorded.now.image recorded.now.inputs) (S.state out.old) (S.state out.new) result }
{
    let Ok(mut buffer) = Buffer::make(alloc) else {
        return Err(CommandError::NoMemory);
    };
    match lines_text(
        &recorded.image,
        &recorded.inputs,
        Some(&recorded.tables),
        &mut buffer,
        out,
    ) {
        Ok(()) => Ok(()),
        Err(SinkFault) => Err(CommandError::OutputFault),
    }
}

/// Prints what each line of direct memory access of a record did.
pub(crate) fn lines<'a, F: Files, S: Sink>(
    alloc: Global,
    image: &'a str,
    inputs: &'a str,
    tables: &'a str,
    files: &mut F,
    out: &mut S,
) -> Result<(), CommandError<'a, Refusal>>
    ensures came { ComesTo devices (lines_plan image.now inputs.now tables.now) (F.held files.old) (F.held files.new) (F.history files.old) (F.history files.new) (S.state out.old) (S.state out.new) result }
    ensures held { F.held files.new ≡ F.held files.old }
{
    match read_recorded(alloc, image, inputs, tables, files) {
        Ok(recorded) => put_lines(alloc, &recorded, out),
        Err(error) => Err(error),
    }
}
