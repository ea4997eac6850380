// The final lines of subjects.
ghost use Rattle.std.specs.Prelude.{◌≡◌, ◌≤◌, option_map, slice_get};
ghost use Rattle.muen_outside.specs.Prints.{Prints};
ghost use Rattle.view_text.specs.ViewText.{rows_text};
ghost use Rattle.muen_run.specs.RunText.{numbered_subject_text, states_text};

use ept_walk::{PhysMem, Translate};
use image_pack::SubjectPart;
use kernel_core::Kernel;
use muen_num::Name;
use muen_outside::{BufferedSink, PrintedLine, Sink, SinkFault};
use view_text::{SubjectState, state_line};

// A row of a subject's final state.
#[derive(Clone, Copy)]
struct StateRow {
    subject: Name,
    state: SubjectState,
    row: u8,
    ghost in_range: { row ≤ 4 },
}

impl PrintedLine for StateRow {
    ghost use Rattle.view_text.specs.ViewText.{state_row_text};

    ghost text = { λ r. state_row_text r.subject r.state r.row };

    fn write(&self, space: &mut [u8; 256]) -> usize {
        state_line(&self.subject, &self.state, self.row, space)
    }
}

// One of its rows.
fn state_row(subject: &Name, state: &SubjectState, row: u8) -> StateRow
    requires { row ≤ 4 }
    ensures subject { result.subject ≡ subject.now }
    ensures state { result.state ≡ state.now }
    ensures row { result.row ≡ row }
{
    StateRow {
        subject: *subject,
        state: *state,
        row,
    }
}

// The five lines of a subject's final state.
fn put_state<S: Sink>(
    subject: &Name,
    state: &SubjectState,
    out: &mut BufferedSink<'_, S>,
) -> Result<(), SinkFault>
    ensures { Prints S.state (rows_text subject.now state.now) out.old out.new result }
{
    let row = |row| state_row(subject, state, row);
    out.put_lines(&[row(0), row(1), row(2), row(3), row(4)])
}

// The name of a subject.
fn name_of(subjects: &[SubjectPart], n: usize) -> Option<Name>
    ensures { result ≡ option_map (λ s. s.name) (slice_get subjects.now n) }
{
    Some(subjects.get(n)?.name)
}

// The lines of the subject with this number.
#[tactic(auto, using(crate::proofs::Numbered::state_told, crate::proofs::Numbered::no_state, crate::proofs::Numbered::no_name))]
fn put_numbered<S: Sink, M: PhysMem, T: Translate>(
    kernel: &Kernel<M, T>,
    n: usize,
    out: &mut BufferedSink<'_, S>,
) -> Result<(), SinkFault>
    ensures { Prints S.state (numbered_subject_text kernel.now.setup kernel.now.live.machine.pages n) out.old out.new result }
{
    let Some(name) = name_of(kernel.setup().subjects.items(), n) else {
        return Ok(());
    };
    let Some(state) = kernel.state(n) else {
        return Ok(());
    };
    put_state(&name, &state, out)
}

/// The lines of all subjects, by their numbers.
#[tactic(auto, using(crate::proofs::Numbered::numbered))]
pub(crate) fn put_states<S: Sink, M: PhysMem, T: Translate>(
    kernel: &Kernel<M, T>,
    out: &mut BufferedSink<'_, S>,
) -> Result<(), SinkFault>
    ensures { Prints S.state (states_text kernel.now.setup kernel.now.live.machine.pages) out.old out.new result }
{
    for n in 0..kernel.setup().subjects.len() {
        put_numbered(kernel, n, out)?;
    }
    Ok(())
}
