// A whole run.
ghost use Rattle.std.specs.Prelude.{◌≡◌, ◌++◌, [], false, true};
ghost use Rattle.muen_outside.specs.Prints.{Prints};
ghost use Rattle.muen_outside.specs.Puts.{Puts};
ghost use Rattle.image_load.specs.Memory.{AreLow};
ghost use Rattle.muen_run.specs.RunText.{final_text, ran_text, spans_text};
ghost use Rattle.muen_run.specs.Turns.{ticks_in};

use crate::digests::put_spans;
use crate::states::put_states;
use crate::turns::put_ticks;
use ept_walk::{PhysMem, Translate};
use image_pack::SpanPart;
use kernel_core::Kernel;
use muen_outside::{Buffer, BufferedSink, Sink, SinkFault};

// The digests of all regions, and of all devices' memories.
#[tactic(auto, using(muen_outside::proofs::Buffered::gives))]
fn put_digests<S: Sink, M: PhysMem>(
    mem: &M,
    spans: &[SpanPart],
    out: &mut BufferedSink<'_, S>,
) -> Result<(), SinkFault>
    requires { AreLow spans.now }
    ensures { Prints S.state (spans_text false spans.now (M.pages mem.now) ++ spans_text true spans.now (M.pages mem.now)) out.old out.new result }
{
    put_spans(mem, spans, false, out)?;
    put_spans(mem, spans, true, out)
}

// The final lines.
#[tactic(auto, using(muen_outside::proofs::Buffered::gives))]
fn put_final<S: Sink, M: PhysMem, T: Translate>(
    kernel: &Kernel<M, T>,
    spans: &[SpanPart],
    out: &mut BufferedSink<'_, S>,
) -> Result<(), SinkFault>
    requires { AreLow spans.now }
    ensures { Prints S.state (final_text kernel.now.setup spans.now kernel.now.live.machine.pages) out.old out.new result }
{
    put_states(kernel, out)?;
    put_digests(kernel.mem(), spans, out)
}

// The lines of all turns, and then the final lines.
#[tactic(auto, using(muen_outside::proofs::Buffered::gives))]
fn put_all<S: Sink, M: PhysMem, T: Translate>(
    kernel: &mut Kernel<M, T>,
    spans: &[SpanPart],
    end: u32,
    out: &mut BufferedSink<'_, S>,
) -> Result<(), SinkFault>
    requires begin { kernel.old.tick ≡ 0 }
    requires low { AreLow spans.now }
    ensures { Prints S.state (ran_text kernel.old.setup spans.now kernel.old.cpus (ticks_in kernel.old end)) out.old out.new result }
{
    put_ticks(kernel, end, out)?;
    kernel.finish();
    put_final(kernel, spans, out)
}

/// The run of a kernel over so many ticks, from the first on.
#[tactic(auto, using(muen_outside::proofs::Buffered::gives))]
pub(crate) fn put_run<S: Sink, M: PhysMem, T: Translate>(
    kernel: &mut Kernel<M, T>,
    spans: &[SpanPart],
    end: u32,
    buffer: &mut Buffer,
    out: &mut S,
) -> Result<(), SinkFault>
    requires begin { kernel.old.tick ≡ 0 }
    requires low { AreLow spans.now }
    requires none { buffer.old ≡ [] }
    ensures { Puts (ran_text kernel.old.setup spans.now kernel.old.cpus (ticks_in kernel.old end)) (S.state out.old) (S.state out.new) result }
{
    let mut out = BufferedSink { buffer, sink: out };
    put_all(kernel, spans, end, &mut out)?;
    out.flush()
}
