//! Policies whose references are resolved, with what each subject sees by itself. What a component
//! provides stands at the component alone, however many subjects use it.
ghost use Rattle.std.specs.Prelude.{◌≡◌, map, IfOk};
ghost use Rattle.policy_lawful.specs.Resolution.{IsResolved};
ghost use Rattle.policy_views.specs.Parts.{sight_of};

use crate::ends::channel_ends;
use crate::seen::seen;
use crate::windows::{behind, front, provided};
use muen_num::{NoMemory, Seq};
use policy_lawful::resolved::{Scheduling, Subject};
use policy_lawful::source::{
    Block, Channel, Component, Device, Domain, Event, Processor, Provided, Region,
};
use policy_lawful::{Elements, IndexedEnd, Resolved, View};
use std::alloc::Global;
use std::marker::Model;

/// What a subject sees, but for the regions that its component provides.
#[derive(Debug, Drop)]
pub(crate) struct Sight {
    /// Its windows before those: its mappings, its channels, its devices' memory.
    pub front: Seq<View>,
    /// Those behind them: on what its component asks for, and on the state pages that it monitors.
    pub behind: Seq<View>,
    /// Its ends of channels, its own and then those of its component.
    pub channel_ends: Seq<IndexedEnd>,
}

/// A policy whose references are resolved: names are unique for each kind, and each reference names
/// a declared thing.
#[derive(Debug, Drop)]
pub struct Linked {
    elements: Elements,
    // Of each subject, in order.
    sights: Seq<Sight>,
}

impl Model for Linked {
    ghost use Rattle.std.specs.Prelude.{◌≡◌, map};
    ghost use Rattle.policy_lawful.specs.Resolution.{Resolution, IsResolved};
    ghost use Rattle.policy_views.specs.Parts.{sight_of};

    ghost Value = { Resolution };

    ghost view = { λ r. r.elements };

    ghost invariant = { λ r. IsResolved r.elements × (r.sights ≡ map (sight_of r.elements) r.elements.subjects) };
}

// What a subject sees by itself.
fn sight_of(alloc: Global, policy: &Elements, subject: &Subject) -> Result<Sight, NoMemory>
    ensures { IfOk result (λ sight. sight ≡ sight_of policy.now subject.now) }
{
    Ok(Sight {
        front: Seq::of(front(alloc, policy, subject)?),
        behind: Seq::of(behind(alloc, policy, subject)?),
        channel_ends: Seq::of(channel_ends(alloc, policy, subject)?),
    })
}

// The same of each subject, in order.
fn sights(alloc: Global, policy: &Elements) -> Result<Seq<Sight>, NoMemory>
    ensures { IfOk result (λ sights. sights ≡ map (sight_of policy.now) policy.now.subjects) }
{
    let mut sights = Seq::new(alloc);
    for subject in policy.subjects.items() {
        sights.push(sight_of(alloc, policy, subject)?)?;
    }
    Ok(sights)
}

impl Linked {
    ghost use Rattle.policy_lawful.specs.ByIndex.{provided_at};
    ghost use Rattle.policy_lawful.specs.Views.{channel_ends_at};
    ghost use Rattle.policy_views.specs.Parts.{behind_at, front_at};

    /// The policy of these elements.
    ///
    /// Answers `NoMemory` where memory was refused.
    pub fn of(alloc: Global, elements: Elements) -> Result<Linked, NoMemory>
        requires { IsResolved elements }
        ensures { IfOk result (λ linked. linked ≡ elements) }
    {
        let sights = sights(alloc, &elements)?;
        Ok(Linked { elements, sights })
    }

    /// The same policy, with all windows of each subject.
    ///
    /// Answers `NoMemory` where memory was refused.
    pub fn resolved(self, alloc: Global) -> Result<Resolved, NoMemory>
        ensures { IfOk result (λ resolved. resolved ≡ self) }
    {
        let Linked { elements, .. } = self;
        let seen = seen(alloc, &elements)?;
        Resolved::make(alloc, elements, seen)
    }

    /// The processor.
    pub fn processor(&self) -> &Processor
        ensures { result.now ≡ self.now.processor }
    {
        &self.elements.processor
    }

    /// The blocks of physical memory.
    pub fn memory_blocks(&self) -> &[Block]
        ensures { result.now ≡ self.now.memory_blocks }
    {
        self.elements.memory_blocks.items()
    }

    /// The devices.
    pub fn devices(&self) -> &[Device]
        ensures value { result.now ≡ self.now.devices }
        ensures resolved { IsResolved self.now }
    {
        self.elements.devices.items()
    }

    /// The regions of memory.
    pub fn memory(&self) -> &[Region]
        ensures value { result.now ≡ self.now.memory }
        ensures resolved { IsResolved self.now }
    {
        self.elements.memory.items()
    }

    /// The channels.
    pub fn channels(&self) -> &[Channel]
        ensures { result.now ≡ self.now.channels }
    {
        self.elements.channels.items()
    }

    /// The components.
    pub fn components(&self) -> &[Component]
        ensures { result.now ≡ self.now.components }
    {
        self.elements.components.items()
    }

    /// The events.
    pub fn events(&self) -> &[Event]
        ensures { result.now ≡ self.now.events }
    {
        self.elements.events.items()
    }

    /// The subjects.
    pub fn subjects(&self) -> &[Subject]
        ensures value { result.now ≡ self.now.subjects }
        ensures resolved { IsResolved self.now }
    {
        self.elements.subjects.items()
    }

    /// The scheduling plan.
    pub fn scheduling(&self) -> &Scheduling
        ensures value { result.now ≡ self.now.scheduling }
        ensures resolved { IsResolved self.now }
    {
        &self.elements.scheduling
    }

    /// The domains of devices, by names.
    pub fn device_domains(&self) -> &[Domain]
        ensures { result.now ≡ self.now.device_domains }
    {
        self.elements.device_domains.items()
    }

    /// The windows of the subject at an index before those on what its component provides: its
    /// mappings, its channels, its devices' memory. None, where no subject is there.
    pub fn front(&self, index: usize) -> &[View]
        ensures { result.now ≡ front_at self.now index }
    {
        match self.sights.items().get(index) {
            None => &[],
            Some(sight) => sight.front.items(),
        }
    }

    /// Those behind them: on what its component asks for, and on the state pages that it monitors.
    /// None, where no subject is there.
    pub fn behind(&self, index: usize) -> &[View]
        ensures { result.now ≡ behind_at self.now index }
    {
        match self.sights.items().get(index) {
            None => &[],
            Some(sight) => sight.behind.items(),
        }
    }

    /// The ends of channels of the subject at an index, its own and then those of its component.
    /// None, where no subject is there.
    pub fn channel_ends(&self, index: usize) -> &[IndexedEnd]
        ensures { result.now ≡ channel_ends_at self.now index }
    {
        match self.sights.items().get(index) {
            None => &[],
            Some(sight) => sight.channel_ends.items(),
        }
    }

    /// The regions that the component of a subject brings along.
    pub fn provided_by(&self, subject: &Subject) -> &[Provided]
        ensures { result.now ≡ provided_at self.now.components subject.now.component }
    {
        provided(&self.elements, &subject.component)
    }
}
