//! The run of a system image on a device record.
#![tactic(auto)]

ghost use Rattle.std.specs.Prelude.{option_map};
ghost use Rattle.device_bench.specs.Devices.{CanRun};
ghost use Rattle.muen_run.specs.Ends.{Runs};
ghost use Rattle.muen_run.specs.RunText.{image_text, run_text};
ghost use Rattle.dma_tables.specs.Law.{IsOrderly};

mod digests;
mod running;
mod states;
mod system;
mod turns;
mod whole;

pub use device_bench::{Effect, Record};
use dma_tables::{DmaTables, Input, lower};
pub use image_pack::{Parts, unpack};
use muen_num::NoMemory;
pub use muen_num::Seq;
use muen_outside::{Sink, SinkFault};
pub use running::{drive, ready};
use std::alloc::Global;
pub use system::{Ready, Running};

/// Why a run was not printed whole.
#[derive(Clone, Copy, Debug)]
pub enum RunError {
    /// The sink failed; a front of the text was put.
    OutFault,
    /// Memory was refused; nothing was put.
    NoMemory,
}

impl From<NoMemory> for RunError {
    ghost use Rattle.std.specs.Prelude.{◌≡◌};
    ghost use Rattle.muen_run.specs.declared.RunError.TheVariants as errors;

    ghost from_gives = { λ refused error. error ≡ errors.NoMemory };

    fn from(refused: NoMemory) -> RunError {
        let NoMemory = refused;
        RunError::NoMemory
    }
}

// Runs an image on what reaches its machine.
#[tactic(auto, unfolding(crate::specs::RunText::image_text))]
fn run_effects<S: Sink>(
    alloc: Global,
    parts: Parts,
    effects: Record<Effect>,
    out: &mut S,
) -> Result<(), RunError>
    requires { CanRun effects }
    ensures { Runs (image_text parts effects) (S.state out.old) (S.state out.new) result }
{
    let system = ready(alloc, parts, effects)?;
    match drive(system, out) {
        Ok(()) => Ok(()),
        Err(SinkFault) => Err(RunError::OutFault),
    }
}

/// Runs an image on a record for it to the record's end, with these tables for direct memory access, or
/// none, and prints each turn's line, each subject's final state, and the digest of each region and of
/// each device's memory.
///
/// # Errors
/// Memory is refused, before anything is put; the sink fails, and has a front of the text.
pub fn run<S: Sink>(
    alloc: Global,
    parts: Parts,
    input: Record<Input>,
    tables: Option<&DmaTables>,
    out: &mut S,
) -> Result<(), RunError>
    requires { IsOrderly input }
    ensures { Runs (run_text (option_map (λ t. t.now) tables.entry) parts input) (S.state out.old) (S.state out.new) result }
{
    let effects = lower(alloc, input, &parts, tables)?;
    run_effects(alloc, parts, effects, out)
}
