//! Running systems.
ghost use Rattle.std.specs.Prelude.{◌≡◌, IfOk};
ghost use Rattle.device_bench.specs.Devices.{CanRun};
ghost use Rattle.kernel_core.specs.Ticks.{kernel_started};
ghost use Rattle.muen_outside.specs.Puts.{Puts};
ghost use Rattle.muen_run.specs.Ready.{IsReady};
ghost use Rattle.muen_run.specs.RunText.{ran_text};
ghost use Rattle.muen_run.specs.Turns.{ticks_in};
ghost use Rattle.phys_mem.specs.Spans.{AreSpans, pages_of_spans};

use crate::system::{Ready, Running};
use crate::whole::put_run;
use device_bench::{Effect, Record};
use ept_walk::CachedWalk;
use image_load::{Loaded, load};
use image_pack::Parts;
use kernel_core::{Kernel, Setup};
use muen_num::NoMemory;
use muen_outside::{Buffer, Sink, SinkFault};
use phys_mem::{FrameMem, MemorySpan};
use std::alloc::Global;

/// How many translations are kept: with so many, those that subjects use at a time seldom meet in a slot.
const TRANSLATIONS: usize = 4096;

// The kernel of a system at the start, on a memory of these spans, with room for what is translated.
fn kernel_of(
    alloc: Global,
    setup: Setup,
    cpus: u8,
    effects: Record<Effect>,
    memory: Vec<MemorySpan>,
) -> Result<Running, NoMemory>
    requires spans { AreSpans memory.items }
    requires run { CanRun effects }
    ensures { IfOk result (λ k. k ≡ kernel_started setup effects cpus (pages_of_spans memory.items)) }
{
    let walk = CachedWalk::new(alloc, TRANSLATIONS)?;
    let memory = FrameMem::start(alloc, memory)?;
    Kernel::start(alloc, setup, cpus, effects, memory, walk)
}

/// The system of an image, ready to run on what reaches its machine. All the memory that the run needs is
/// taken here.
///
/// # Errors
/// Memory is refused.
#[tactic(auto, using(crate::proofs::LowSpans::loaded_low))]
pub fn ready(alloc: Global, parts: Parts, effects: Record<Effect>) -> Result<Ready, NoMemory>
    requires { CanRun effects }
    ensures { IfOk result (IsReady parts effects) }
{
    let Loaded {
        cpus,
        setup,
        memory,
        spans,
    } = load(alloc, parts)?;
    let kernel = kernel_of(alloc, setup, cpus, effects, memory)?;
    let buffer = Buffer::make(alloc)?;
    Ok(Ready {
        kernel,
        spans,
        buffer,
    })
}

/// Runs a system from its first tick to the end of what reaches it, and prints each turn's line, each
/// subject's final state, and the digest of each region and of each device's memory. It takes no memory.
///
/// # Errors
/// The sink fails, and has a front of the text.
pub fn drive<S: Sink>(system: Ready, out: &mut S) -> Result<(), SinkFault>
    requires { system.kernel.tick ≡ 0 }
    ensures { Puts (ran_text system.kernel.setup system.spans system.kernel.cpus (ticks_in system.kernel system.kernel.run.end)) (S.state out.old) (S.state out.new) result }
{
    let Ready {
        kernel,
        spans,
        buffer,
    } = system;
    let end = kernel.end();
    let mut kernel = kernel;
    let mut buffer = buffer;
    put_run(&mut kernel, spans.items(), end, &mut buffer, out)
}
