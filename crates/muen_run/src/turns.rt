// The lines of all turns.
ghost use Rattle.std.specs.Prelude.{◌≡◌, ◌+◌, ◌<◌, ◌^◌, option_to_list, slice_get, OnOk};
ghost use Rattle.std.specs.List.{flat_map};
ghost use Rattle.muen_outside.specs.Prints.{Prints};
ghost use Rattle.view_text.specs.ViewText.{turn_text};
ghost use Rattle.kernel_core.specs.Ticks.{with_live};
ghost use Rattle.muen_run.specs.Turns.{at_tick, order_of, tick_in, ticks_in, turn_at, turns_in};

use ept_walk::{PhysMem, Translate};
use kernel_core::Kernel;
use muen_outside::{BufferedSink, PrintedLine, Sink, SinkFault};
use view_text::{TurnLine, turn_line};

// A turn's line, lent to be printed.
#[derive(Drop)]
struct PrintedTurn<'a> {
    line: &'a TurnLine,
}

impl PrintedLine for PrintedTurn<'_> {
    ghost use Rattle.view_text.specs.ViewText.{turn_text};

    ghost text = { λ p. turn_text p.line.now };

    fn write(&self, space: &mut [u8; 256]) -> usize {
        turn_line(self.line, space)
    }
}

// The line of a turn, if it has one.
#[tactic(auto, using(muen_outside::proofs::Buffered::gives))]
fn put_line<S: Sink>(line: Option<TurnLine>, out: &mut BufferedSink<'_, S>) -> Result<(), SinkFault>
    ensures { Prints S.state (flat_map turn_text (option_to_list line)) out.old out.new result }
{
    match line {
        None => Ok(()),
        Some(line) => out.put_line(&PrintedTurn { line: &line }),
    }
}

// The turn of an index in the tick.
fn turn_at<M: PhysMem, T: Translate>(kernel: &mut Kernel<M, T>, index: usize) -> Option<TurnLine>
    ensures state { kernel.new ≡ with_live kernel.old (turn_at kernel.old (slice_get (order_of kernel.old) index)).state }
    ensures line { result ≡ (turn_at kernel.old (slice_get (order_of kernel.old) index)).line }
{
    let cpu = kernel.cpu_at(index)?;
    kernel.turn(cpu)
}

// The turns of the tick, in their order.
#[tactic(auto, using(crate::proofs::RunSteps::turn_lines))]
fn put_turns<S: Sink, M: PhysMem, T: Translate>(
    kernel: &mut Kernel<M, T>,
    out: &mut BufferedSink<'_, S>,
) -> Result<(), SinkFault>
    ensures lines { Prints S.state (flat_map turn_text (turns_in kernel.old (order_of kernel.old)).lines) out.old out.new result }
    ensures state { OnOk result (kernel.new ≡ with_live kernel.old (turns_in kernel.old (order_of kernel.old)).state) }
{
    for index in 0..kernel.turns() {
        let line = turn_at(kernel, index);
        put_line(line, out)?;
    }
    Ok(())
}

// The tick: its inputs, and then its turns.
fn put_tick<S: Sink, M: PhysMem, T: Translate>(
    kernel: &mut Kernel<M, T>,
    out: &mut BufferedSink<'_, S>,
) -> Result<(), SinkFault>
    requires { kernel.old.tick + 1 < 2 ^ 32 }
    ensures lines { Prints S.state (flat_map turn_text (tick_in kernel.old).lines) out.old out.new result }
    ensures state { OnOk result (kernel.new ≡ at_tick kernel.old (tick_in kernel.old).state (kernel.old.tick + 1)) }
{
    kernel.begin_tick();
    put_turns(kernel, out)?;
    kernel.end_tick();
    Ok(())
}

/// So many ticks, from the first on.
#[tactic(auto, using(crate::proofs::RunSteps::tick_lines))]
pub(crate) fn put_ticks<S: Sink, M: PhysMem, T: Translate>(
    kernel: &mut Kernel<M, T>,
    end: u32,
    out: &mut BufferedSink<'_, S>,
) -> Result<(), SinkFault>
    requires { kernel.old.tick ≡ 0 }
    ensures lines { Prints S.state (flat_map turn_text (ticks_in kernel.old end).lines) out.old out.new result }
    ensures state { OnOk result (kernel.new ≡ at_tick kernel.old (ticks_in kernel.old end).state end) }
{
    for _tick in 0..end {
        put_tick(kernel, out)?;
    }
    Ok(())
}
