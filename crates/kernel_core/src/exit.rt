//! What the kernel makes of an exit.
ghost use Rattle.std.specs.Prelude.{◌≡◌};
ghost use Rattle.kernel_core.specs.Kernel.{entry, event_of, exit_end_of};

use image_pack::{EventPart, SubjectPart};
use muen_num::limits::{EXIT_HLT, EXIT_VMCALL};
use view_text::ExitEnd;

// The event of a number.
fn entry(events: &[Option<EventPart>], n: usize) -> Option<EventPart>
    ensures { result ≡ entry events.now n }
{
    events.get(n).copied().flatten()
}

/// The event that an exit of a subject raises, if it raises one: by the number of its call, or by the
/// reason of its trap.
pub(crate) fn event_of(part: &SubjectPart, reason: u8, call: u64) -> Option<EventPart>
    ensures { result ≡ event_of part.now reason call }
{
    match reason {
        EXIT_HLT => None,
        EXIT_VMCALL => entry(part.calls.items(), call as usize),
        _ => entry(part.traps.items(), reason as usize),
    }
}

/// How the kernel ends an exit, by whether it raises an event.
pub(crate) fn exit_end_of(reason: u8, raises: bool) -> ExitEnd
    ensures { result ≡ exit_end_of reason raises }
{
    match reason {
        EXIT_HLT => ExitEnd::Halt,
        EXIT_VMCALL => ExitEnd::On,
        _ if raises => ExitEnd::Trap,
        _ => ExitEnd::Stop,
    }
}
