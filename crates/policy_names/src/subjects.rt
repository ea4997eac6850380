//! Subjects, which refer to components, regions, channels, devices, events and each other.
ghost use Rattle.std.specs.Prelude.{◌≡◌, true, IfOk};
ghost use Rattle.muen_num.specs.Search.{first_in};
ghost use Rattle.policy_lawful.specs.Keeps.{Keeps};
ghost use Rattle.policy_lawful.specs.Offences.{broken};
ghost use Rattle.policy_lawful.specs.Resolution.{subject_in_range, subject_named};
ghost use Rattle.policy_lawful.specs.Rules.{component_references, subject_references, undeclared};
ghost use Rattle.policy_names.specs.Outline.{bare_resolution, use_in_range, use_named};
ghost use Rattle.policy_names.specs.Indexes.{StandsFor};
ghost use Rattle.policy_names.specs.SubjectParts.{SignalsStand, WindowsStand, signals_offence, windows_offence};

use crate::refers::{Refers, resolve_all, resolve_all_in};
use crate::scope::Scope;
use muen_num::{Name, NoMemory, Seq};
use policy_lawful::source::Msrs;
use policy_lawful::{Refusal, resolved, source};
use std::alloc::Global;

impl Refers for source::Subject {
    type By = ();

    type Resolved = resolved::Subject;

    ghost offence = { λ p _ s. first_in (undeclared s.name) (subject_references p s) };

    ghost named = { λ p _. subject_named (bare_resolution p) };

    ghost in_range = { λ p _. subject_in_range (bare_resolution p) };

    #[tactic(auto, using(crate::proofs::SubjectAtIndexes::in_stages))]
    fn resolve(&self, alloc: Global, scope: &Scope, _: ()) -> Result<resolved::Subject, Refusal> {
        let component = resolve_component(alloc, scope, self.name, &self.component)?;
        let (memory, channels, devices) = resolve_windows(alloc, scope, self)?;
        let (sources, targets, monitors) = resolve_signals(alloc, scope, self)?;
        Ok(resolved::Subject {
            name: self.name,
            cpu: self.cpu,
            entry: self.entry,
            component,
            memory,
            channels,
            devices,
            msrs: copy_msrs(alloc, self.msrs.items())?,
            sources,
            targets,
            monitors,
        })
    }
}

// The use of a component by the subject that has the name `by`, if it uses one.
fn resolve_component(
    alloc: Global,
    scope: &Scope,
    by: Name,
    component: &Option<source::ComponentUse>,
) -> Result<Option<resolved::ComponentUse>, Refusal>
    ensures { let p = scope.now.source.now in Keeps (broken 2 (first_in (undeclared by) (component_references p component.now))) (StandsFor (use_named p) (use_in_range p) component.now) result }
{
    match component {
        Some(used) => Ok(Some(used.resolve(alloc, scope, by)?)),
        None => Ok(None),
    }
}

type Windows = (
    Seq<resolved::Mapping>,
    Seq<resolved::ChannelUse>,
    Seq<resolved::DeviceUse>,
);

// What a subject's windows show.
#[tactic(auto, unfolding(crate::specs::SubjectParts::windows_offence), using(crate::proofs::SubjectAtIndexes::as_many))]
fn resolve_windows(
    alloc: Global,
    scope: &Scope,
    subject: &source::Subject,
) -> Result<Windows, Refusal>
    ensures { let p = scope.now.source.now in Keeps (broken 2 (windows_offence p subject.now)) (λ x. WindowsStand p subject.now x.0 x.1 x.2) result }
{
    let by = subject.name;
    let memory = resolve_all_in(alloc, &scope.regions, by, subject.memory.items())?;
    let channels = resolve_all_in(alloc, &scope.channels, by, subject.channels.items())?;
    let devices = resolve_all(alloc, scope, by, subject.devices.items())?;
    Ok((memory, channels, devices))
}

type Signals = (
    Seq<resolved::EventSource>,
    Seq<resolved::EventTarget>,
    Seq<resolved::Monitor>,
);

// The events that a subject raises and gets, and the subjects that it monitors.
#[tactic(auto, unfolding(crate::specs::SubjectParts::signals_offence), using(crate::proofs::SubjectAtIndexes::as_many))]
fn resolve_signals(
    alloc: Global,
    scope: &Scope,
    subject: &source::Subject,
) -> Result<Signals, Refusal>
    ensures { let p = scope.now.source.now in Keeps (broken 2 (signals_offence p subject.now)) (λ x. SignalsStand p subject.now x.0 x.1 x.2) result }
{
    let by = subject.name;
    let sources = resolve_all_in(alloc, &scope.events, by, subject.sources.items())?;
    let targets = resolve_all_in(alloc, &scope.events, by, subject.targets.items())?;
    let monitors = resolve_all_in(alloc, &scope.subjects, by, subject.monitors.items())?;
    Ok((sources, targets, monitors))
}

// The same ranges of MSRs once more.
fn copy_msrs(alloc: Global, msrs: &[Msrs]) -> Result<Seq<Msrs>, NoMemory>
    ensures { IfOk result (λ copies. copies ≡ msrs.now) }
{
    let mut copies = Seq::new(alloc);
    for range in msrs {
        copies.push(Msrs {
            start: range.start,
            end: range.end,
            rights: range.rights,
        })?;
    }
    Ok(copies)
}
