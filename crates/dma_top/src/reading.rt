//! The files of commands, and what their bytes mean.
ghost use Rattle.std.specs.Prelude.{◌≡◌, IfErr, IfOk};
ghost use Rattle.policy_lawful.specs.Resolution.{source_of};
ghost use Rattle.image_pack.specs.fault.ImageFault.TheVariants as image_faults;
ghost use Rattle.record_text.specs.declared.fault.RecordFault.TheVariants as record_faults;
ghost use Rattle.policy_lawful.specs.refusal.Refusal.TheVariants as refusals;
ghost use Rattle.dma_top.specs.Answers.{image_plan, policy_plan, record_plan, tables_plan};
ghost use Rattle.dma_top.specs.Reads.{Finds, FindsNone, IsErrorOf};
ghost use Rattle.dma_top.specs.declared.refusal.Refusal.TheVariants as reasons;

use crate::refusal::Refusal;
use command_shell::{CommandError, read_file};
use dma_tables::DmaTables;
use image_pack::{ImageFault, Parts};
use muen_num::limits::{IMAGE_MOST, POLICY_MOST, RECORD_MOST};
use muen_outside::Files;
use muen_top::limits::DMA_MOST;
use policy_lawful::Lawful;
use record_text::{Input, Record, RecordFault};
use std::alloc::Global;

fn image_error<'a>(fault: ImageFault) -> CommandError<'a, Refusal>
    ensures { IsErrorOf image_faults.NoMemory reasons.Image fault result }
{
    match fault {
        ImageFault::NoMemory => CommandError::NoMemory,
        _ => CommandError::Own(Refusal::Image(fault)),
    }
}

fn tables_error<'a>(fault: ImageFault) -> CommandError<'a, Refusal>
    ensures { IsErrorOf image_faults.NoMemory reasons.Tables fault result }
{
    match fault {
        ImageFault::NoMemory => CommandError::NoMemory,
        _ => CommandError::Own(Refusal::Tables(fault)),
    }
}

fn record_error<'a>(fault: RecordFault) -> CommandError<'a, Refusal>
    ensures { IsErrorOf record_faults.NoMemory reasons.Record fault result }
{
    match fault {
        RecordFault::NoMemory => CommandError::NoMemory,
        _ => CommandError::Own(Refusal::Record(fault)),
    }
}

/// The error that tells why a policy is refused, or that memory was.
pub(crate) fn policy_error<'a>(refusal: policy_lawful::Refusal) -> CommandError<'a, Refusal>
    ensures { IsErrorOf refusals.NoMemory reasons.Policy refusal result }
{
    if refusal.is_no_memory() {
        CommandError::NoMemory
    } else {
        CommandError::Own(Refusal::Policy(refusal))
    }
}

/// The image of the file of this name.
pub(crate) fn read_image<'a, F: Files>(
    alloc: Global,
    name: &'a str,
    files: &mut F,
) -> Result<Parts, CommandError<'a, Refusal>>
    ensures ok { IfOk result (Finds (image_plan name.now) (F.held files.old) (F.history files.old) (F.history files.new)) }
    ensures err { IfErr result (FindsNone (image_plan name.now) (F.held files.old) (F.history files.old) (F.history files.new)) }
    ensures held { F.held files.new ≡ F.held files.old }
{
    let bytes = read_file(alloc, name, IMAGE_MOST, files)?;
    match image_pack::unpack(alloc, bytes.items()) {
        Ok(parts) => Ok(parts),
        Err(fault) => Err(image_error(fault)),
    }
}

/// The tables of the file of this name.
pub(crate) fn read_tables<'a, F: Files>(
    alloc: Global,
    name: &'a str,
    files: &mut F,
) -> Result<DmaTables, CommandError<'a, Refusal>>
    ensures ok { IfOk result (Finds (tables_plan name.now) (F.held files.old) (F.history files.old) (F.history files.new)) }
    ensures err { IfErr result (FindsNone (tables_plan name.now) (F.held files.old) (F.history files.old) (F.history files.new)) }
    ensures held { F.held files.new ≡ F.held files.old }
{
    let bytes = read_file(alloc, name, DMA_MOST, files)?;
    match dma_tables::unpack(alloc, bytes.items()) {
        Ok(tables) => Ok(tables),
        Err(fault) => Err(tables_error(fault)),
    }
}

/// The record of the file of this name, for the image.
pub(crate) fn read_inputs<'a, F: Files>(
    alloc: Global,
    image: &Parts,
    name: &'a str,
    files: &mut F,
) -> Result<Record<Input>, CommandError<'a, Refusal>>
    ensures ok { IfOk result (Finds (record_plan image.now name.now) (F.held files.old) (F.history files.old) (F.history files.new)) }
    ensures err { IfErr result (FindsNone (record_plan image.now name.now) (F.held files.old) (F.history files.old) (F.history files.new)) }
    ensures held { F.held files.new ≡ F.held files.old }
{
    let bytes = read_file(alloc, name, RECORD_MOST, files)?;
    match image_load::read_record(alloc, image, bytes.items()) {
        Ok(inputs) => Ok(inputs),
        Err(fault) => Err(record_error(fault)),
    }
}

/// The policy of the file of this name, which keeps every rule.
pub(crate) fn read_policy<'a, F: Files>(
    alloc: Global,
    name: &'a str,
    files: &mut F,
) -> Result<Lawful, CommandError<'a, Refusal>>
    ensures ok { IfOk result (λ policy. Finds (policy_plan name.now) (F.held files.old) (F.history files.old) (F.history files.new) (source_of policy)) }
    ensures err { IfErr result (FindsNone (policy_plan name.now) (F.held files.old) (F.history files.old) (F.history files.new)) }
    ensures held { F.held files.new ≡ F.held files.old }
{
    let bytes = read_file(alloc, name, POLICY_MOST, files)?;
    match muen_build::lawful(alloc, bytes.items()) {
        Ok(policy) => Ok(policy),
        Err(refusal) => Err(policy_error(refusal)),
    }
}
