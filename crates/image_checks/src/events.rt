//! Whether the subjects of an image are those of a policy, with the events that they raise.
ghost use Rattle.std.specs.Prelude.{◌≡◌, ◌==◌, ◌<◌, length, position, IfOk};
ghost use Rattle.std.specs.List.{All, AllZip, list_any};
ghost use Rattle.event_emit.specs.Tables.{AreTables};
ghost use Rattle.image_checks.specs.Agreement.{IsFull, SubjectAgrees, subjects_of_both};
ghost use Rattle.image_checks.specs.Firsts.{Decides, HoldsAt, IsFirstFailing};
ghost use Rattle.image_soundness.specs.Sound.{IsSubjectOf};
ghost use Rattle.policy_lawful.specs.Resolution.{source_of};

use event_emit::{EventTables, tables};
use expand_kernel::Expanded;
use image_pack::{EventPart, Parts, SubjectPart};
use muen_num::NoMemory;
use policy_lawful::Lawful;
use policy_lawful::resolved::Subject;
use std::alloc::Global;

// Whether two tables have the same events.
fn same_events(a: &[Option<EventPart>], b: &[Option<EventPart>]) -> bool
    ensures { Decides (a.now ≡ b.now) result }
{
    a == b
}

// Whether a subject has this name and CPU, is in this group and raises these events.
fn agrees(subject: &Subject, group: Option<usize>, tables: &EventTables, part: &SubjectPart) -> bool
    ensures { Decides (SubjectAgrees subject.now group tables.now part.now) result }
{
    part.name == subject.name
        && u64::from(part.cpu) == subject.cpu
        && group == Some(usize::from(part.group))
        && same_events(part.calls.items(), tables.calls.items())
        && same_events(part.traps.items(), tables.traps.items())
}

// Whether the subject at an index is that of the policy, which has these tables of events.
fn is_subject(lawful: &Lawful, tables: &[EventTables], parts: &[SubjectPart], index: usize) -> bool
    requires tables { AllZip (AreTables lawful.now) lawful.now.subjects tables.now }
    requires many { length parts.now ≡ length lawful.now.subjects }
    requires full { All IsFull parts.now }
    requires there { index < length parts.now }
    ensures { Decides (HoldsAt (λ e. IsSubjectOf (source_of lawful.now) e.0 e.1) (subjects_of_both lawful.now parts.now) index) result }
{
    let policy = lawful.resolved();
    let group = policy.scheduling().group_with(index);
    agrees(
        &policy.subjects()[index],
        group,
        &tables[index],
        &parts[index],
    )
}

// The first subject that is not that of the policy, which has these tables of events.
fn first_other(lawful: &Lawful, tables: &[EventTables], parts: &[SubjectPart]) -> Option<usize>
    requires tables { AllZip (AreTables lawful.now) lawful.now.subjects tables.now }
    requires many { length parts.now ≡ length lawful.now.subjects }
    requires full { All IsFull parts.now }
    ensures { IsFirstFailing (λ e. IsSubjectOf (source_of lawful.now) e.0 e.1) (subjects_of_both lawful.now parts.now) result }
{
    for index in 0..parts.len() {
        if !is_subject(lawful, tables, parts, index) {
            return Some(index);
        }
    }
    None
}

/// The first subject of an image that is not that of the policy, if there is one, where the image
/// has as many subjects.
///
/// # Errors
/// Memory is refused.
pub(crate) fn subject_fault(
    alloc: Global,
    expanded: &Expanded,
    image: &Parts,
) -> Result<Option<usize>, NoMemory>
    requires { length image.now.subjects ≡ length expanded.now.lawful.subjects }
    ensures { IfOk result (IsFirstFailing (λ e. IsSubjectOf (source_of expanded.now.lawful) e.0 e.1) (subjects_of_both expanded.now.lawful image.now.subjects)) }
{
    let made = tables(alloc, expanded)?;
    let parts = image.image().subjects.items();
    Ok(first_other(expanded.lawful(), made.items(), parts))
}
