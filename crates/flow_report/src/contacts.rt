//! What a subject gives to others and what it takes from them.
ghost use Rattle.std.specs.Prelude.{◌≡◌, ◌==◌, map, slice_get, Some, IfOk};
ghost use Rattle.std.specs.List.{filter_map, list_any};
ghost use Rattle.policy_lawful.specs.Resolution.{IsResolved};
ghost use Rattle.policy_lawful.specs.Events.{same_way};
ghost use Rattle.flow_report.specs.ByIndex.{all_contacts_of, channel_read, channel_written, contacts_of, event_by, first_target, flows_between, is_frame_chooser, reached_by, region_changed, region_shown, subject_changed};
ghost use Rattle.muen_num.specs.Numbers.{is_among, share};

use muen_num::{AccessKind, Name, NoMemory, Seq};
use policy_lawful::resolved::{EventSource, Monitor, Subject};
use policy_lawful::source::{SourceWay, Tau0};
use policy_lawful::{IndexedEnd, Resolved, Role, Shown, View};
use std::alloc::{AllocError, Global};

/// A subject's index, and by indexes what it gives to others and takes from them.
#[derive(Drop)]
pub(crate) struct Contacts {
    pub index: usize,
    /// The channels that it writes.
    pub writes: Seq<usize>,
    /// The channels that it reads.
    pub reads: Seq<usize>,
    /// The regions that it may change.
    pub changes: Seq<usize>,
    /// The regions that it maps.
    pub maps: Seq<usize>,
    /// The subjects that events of its sources reach.
    pub reaches: Seq<usize>,
    /// Whether it chooses the major frames.
    pub chooses: bool,
    /// The subjects that it monitors.
    pub watches: Seq<usize>,
    /// The subjects whose state it may change.
    pub alters: Seq<usize>,
}

fn channel_written(end: &IndexedEnd) -> Option<usize>
    ensures { result ≡ channel_written end.now.role end.now.channel }
{
    match end.role {
        Role::Writer => Some(end.channel),
        Role::Reader => None,
    }
}

fn channel_read(end: &IndexedEnd) -> Option<usize>
    ensures { result ≡ channel_read end.now.role end.now.channel }
{
    match end.role {
        Role::Writer => None,
        Role::Reader => Some(end.channel),
    }
}

fn region_shown(shows: Shown) -> Option<usize>
    ensures { result ≡ region_shown shows }
{
    match shows {
        Shown::Memory(index) => Some(index),
        _ => None,
    }
}

fn region_changed(view: &View) -> Option<usize>
    ensures { result ≡ region_changed view.now }
{
    if view.rights.allows(AccessKind::Write) {
        region_shown(view.shows)
    } else {
        None
    }
}

fn same_way(first: SourceWay, second: SourceWay) -> bool
    ensures { result ≡ same_way first second }
{
    match (first, second) {
        (SourceWay::Call(m), SourceWay::Call(n)) => m == n,
        (SourceWay::Trap(m), SourceWay::Trap(n)) => m == n,
        _ => false,
    }
}

// The event of the first source with this way.
fn event_by(sources: &[EventSource], way: SourceWay) -> Option<usize>
    ensures { result ≡ event_by sources.now way }
{
    sources
        .iter()
        .find(|source| same_way(source.way, way))
        .map(|source| source.event)
}

fn has_target(subject: &Subject, event: usize) -> bool
    ensures { result ≡ list_any (λ e. e.event == event) subject.now.targets }
{
    let targets = subject.targets.items();
    targets.iter().any(|target| target.event == event)
}

// The first subject that has the event as a target.
fn first_target(subjects: &[Subject], event: usize) -> Option<usize>
    ensures { result ≡ first_target subjects.now event }
{
    subjects
        .iter()
        .position(|subject| has_target(subject, event))
}

// The subject that is reached by what a subject with these sources raises in this way.
fn reached_by(subjects: &[Subject], sources: &[EventSource], way: SourceWay) -> Option<usize>
    ensures { result ≡ reached_by subjects.now sources.now way }
{
    first_target(subjects, event_by(sources, way)?)
}

fn subject_changed(monitor: &Monitor) -> Option<usize>
    ensures { result ≡ subject_changed monitor.now }
{
    if monitor.rights.allows(AccessKind::Write) {
        Some(monitor.subject)
    } else {
        None
    }
}

fn is_chooser(tau0: &Option<Tau0>, name: &Name) -> bool
    ensures { result ≡ is_frame_chooser tau0.now name.now }
{
    match tau0 {
        None => false,
        Some(tau0) => tau0.subject == *name,
    }
}

fn written(alloc: Global, ends: &[IndexedEnd]) -> Result<Vec<usize>, AllocError>
    ensures { IfOk result (λ v. v.items ≡ filter_map (λ e. channel_written e.role e.channel) ends.now) }
{
    ends.iter()
        .filter_map(|e| channel_written(e))
        .collect(alloc)
}

fn read(alloc: Global, ends: &[IndexedEnd]) -> Result<Vec<usize>, AllocError>
    ensures { IfOk result (λ v. v.items ≡ filter_map (λ e. channel_read e.role e.channel) ends.now) }
{
    ends.iter().filter_map(|e| channel_read(e)).collect(alloc)
}

fn changed(alloc: Global, views: &[View]) -> Result<Vec<usize>, AllocError>
    ensures { IfOk result (λ v. v.items ≡ filter_map region_changed views.now) }
{
    views
        .iter()
        .filter_map(|v| region_changed(v))
        .collect(alloc)
}

fn mapped(alloc: Global, views: &[View]) -> Result<Vec<usize>, AllocError>
    ensures { IfOk result (λ v. v.items ≡ filter_map (λ w. region_shown w.shows) views.now) }
{
    views
        .iter()
        .filter_map(|v| region_shown(v.shows))
        .collect(alloc)
}

fn reached(
    alloc: Global,
    subjects: &[Subject],
    sources: &[EventSource],
) -> Result<Vec<usize>, AllocError>
    ensures { IfOk result (λ v. v.items ≡ filter_map (λ e. reached_by subjects.now sources.now e.way) sources.now) }
{
    sources
        .iter()
        .filter_map(|source| reached_by(subjects, sources, source.way))
        .collect(alloc)
}

fn watched(alloc: Global, monitors: &[Monitor]) -> Result<Vec<usize>, AllocError>
    ensures { IfOk result (λ v. v.items ≡ map (λ m. m.subject) monitors.now) }
{
    monitors.iter().map(|m| m.subject).collect(alloc)
}

fn altered(alloc: Global, monitors: &[Monitor]) -> Result<Vec<usize>, AllocError>
    ensures { IfOk result (λ v. v.items ≡ filter_map subject_changed monitors.now) }
{
    monitors
        .iter()
        .filter_map(|m| subject_changed(m))
        .collect(alloc)
}

// What the subject at an index gives and takes.
fn make_contacts(
    alloc: Global,
    policy: &Resolved,
    index: usize,
    subject: &Subject,
) -> Result<Contacts, NoMemory>
    requires { slice_get policy.now.subjects index ≡ Some subject.now }
    ensures { IfOk result (λ f. f ≡ contacts_of policy.now (index, subject.now)) }
{
    let (ends, views) = (policy.channel_ends(index), policy.views(index));
    let (sources, monitors) = (subject.sources.items(), subject.monitors.items());
    Ok(Contacts {
        index,
        writes: Seq::of(written(alloc, ends)?),
        reads: Seq::of(read(alloc, ends)?),
        changes: Seq::of(changed(alloc, views)?),
        maps: Seq::of(mapped(alloc, views)?),
        reaches: Seq::of(reached(alloc, policy.subjects(), sources)?),
        chooses: is_chooser(&policy.scheduling().tau0, &subject.name),
        watches: Seq::of(watched(alloc, monitors)?),
        alters: Seq::of(altered(alloc, monitors)?),
    })
}

/// The contacts of all subjects, in the policy's order.
///
/// Answers `NoMemory` where memory was refused.
pub(crate) fn all_contacts(alloc: Global, policy: &Resolved) -> Result<Vec<Contacts>, NoMemory>
    ensures all_contacts { IfOk result (λ v. v.items ≡ all_contacts_of policy.now) }
    ensures resolved { IsResolved policy.now }
{
    let mut all_contacts = Vec::new(alloc);
    for (index, subject) in policy.subjects().iter().enumerate() {
        all_contacts.push(make_contacts(alloc, policy, index, subject)?)?;
    }
    Ok(all_contacts)
}

fn is_among(indexes: &[usize], index: usize) -> bool
    ensures { result ≡ is_among indexes.now index }
{
    indexes.iter().any(|other| *other == index)
}

// Whether some index is in both lists.
fn share(first: &[usize], second: &[usize]) -> bool
    ensures { result ≡ share first.now second.now }
{
    first.iter().any(|index| is_among(second, *index))
}

/// Whether what the first does can reach the second directly.
#[tactic(auto, unfolding(crate::specs::ByIndex::flows_between))]
pub(crate) fn flows_between(from: &Contacts, to: &Contacts) -> bool
    ensures { result ≡ flows_between from.now to.now }
{
    share(from.writes.items(), to.reads.items())
        || share(from.changes.items(), to.maps.items())
        || is_among(from.reaches.items(), to.index)
        || from.chooses
        || is_among(to.watches.items(), from.index)
        || is_among(from.alters.items(), to.index)
}
