//! Rule 24: a subject monitors other subjects of its CPU, each once, and executes nothing there.
ghost use Rattle.std.specs.Prelude.{◌≡◌, ℕ, ◌<◌, ◌&&◌, [], not, false, length, slice_index_or, IfOk, IfNone};
ghost use Rattle.muen_num.specs.Search.{first_in, unless};
ghost use Rattle.policy_lawful.specs.Domains.{offence_24};
ghost use Rattle.policy_lawful.specs.Resolution.{source_of};
ghost use Rattle.rules_events.specs.Monitors.{is_monitor_of, is_monitored, monitor_fault, monitors_offence, AreMarks};

use crate::marks::{is_marked, mark, no_marks};
use muen_num::NoMemory;
use policy_lawful::Offence;
use policy_lawful::resolved::{Monitor, Subject};
use policy_views::Linked;
use std::alloc::Global;

// Whether a subject may have this monitor of another one, which it may not have monitored before.
fn is_monitor_of(other: &Subject, subject: &Subject, monitor: &Monitor, is_new: bool) -> bool
    ensures { result ≡ is_monitor_of other.now subject.now monitor.now is_new }
{
    other.name != subject.name
        && other.cpu == subject.cpu
        && is_new
        && !monitor.rights.may_execute()
}

// A monitor that may not be.
fn monitor_fault(
    subjects: &[Subject],
    subject: &Subject,
    monitor: &Monitor,
    is_new: bool,
) -> Option<Offence>
    ensures { result ≡ monitor_fault subjects.now subject.now is_new monitor.now }
{
    let other = subjects.get(monitor.subject)?;
    let offence = Offence {
        first: subject.name,
        second: other.name,
    };
    offence.unless(is_monitor_of(other, subject, monitor, is_new))
}

// The first monitor of a subject that may not be. Where there is none, the subjects that it monitors
// are marked.
#[tactic(auto, using(crate::proofs::Monitored::steps))]
fn of_monitors(marks: &mut [bool], subjects: &[Subject], subject: &Subject) -> Option<Offence>
    requires room { length marks.old ≡ length subjects.now }
    requires clear { AreMarks marks.old [] }
    ensures offence { result ≡ monitors_offence subjects.now subject.now }
    ensures marks { IfNone result (AreMarks marks.new subject.now.monitors) }
{
    for monitor in subject.monitors.items() {
        let is_new = !is_marked(marks, monitor.subject);
        if let Some(offence) = monitor_fault(subjects, subject, monitor, is_new) {
            return Some(offence);
        }
        mark(marks, monitor.subject, true);
    }
    None
}

// Takes the marks of these away.
#[tactic(auto, using(crate::proofs::Monitored::steps))]
fn clear(marks: &mut [bool], monitors: &[Monitor])
    ensures { (k : ℕ) → k < length marks.old → slice_index_or marks.new k false ≡ (slice_index_or marks.old k false && not (is_monitored monitors.now k)) }
{
    for monitor in monitors {
        mark(marks, monitor.subject, false);
    }
}

// The same of a subject, with marks that are clear before and after.
#[tactic(auto, using(crate::proofs::Monitored::steps))]
fn of_subject(marks: &mut [bool], subjects: &[Subject], subject: &Subject) -> Option<Offence>
    requires room { length marks.old ≡ length subjects.now }
    requires clear { AreMarks marks.old [] }
    ensures offence { result ≡ monitors_offence subjects.now subject.now }
    ensures clear { IfNone result (AreMarks marks.new []) }
{
    let offence = of_monitors(marks, subjects, subject);
    if offence.is_none() {
        clear(marks, subject.monitors.items());
    }
    offence
}

// The first such monitor of all subjects.
fn of_subjects(marks: &mut [bool], subjects: &[Subject]) -> Option<Offence>
    requires room { length marks.old ≡ length subjects.now }
    requires clear { AreMarks marks.old [] }
    ensures { result ≡ first_in (monitors_offence subjects.now) subjects.now }
{
    for subject in subjects {
        if let Some(offence) = of_subject(marks, subjects, subject) {
            return Some(offence);
        }
    }
    None
}

/// The first offence against rule 24, if any: a monitor of the subject itself, of one on another
/// CPU, of one that it monitors already, or with the right to execute.
///
/// Answers `NoMemory` where memory was refused.
#[tactic(auto, using(crate::proofs::MonitorsByIndex::monitors_by_index))]
pub fn monitors(alloc: Global, policy: &Linked) -> Result<Option<Offence>, NoMemory>
    ensures { IfOk result (λ o. o ≡ offence_24 (source_of policy.now)) }
{
    let mut marks = no_marks(alloc, policy.subjects().len())?;
    Ok(of_subjects(&mut marks, policy.subjects()))
}
