//! What the elements of a policy may refer to.
ghost use Rattle.std.specs.Prelude.{◌≡◌, ◌<◌, length, map, slice_get, None, Some, IfNone, IfSome};
ghost use Rattle.std.specs.Option.{option_or};
ghost use Rattle.policy_lawful.specs.Keeps.{Keeps};
ghost use Rattle.policy_lawful.specs.Offences.{broken};
ghost use Rattle.policy_lawful.specs.Rules.{offence_1};
ghost use Rattle.policy_names.specs.Parts.{AreComponentNames, AreMemberNames, components_repeat, hardware_repeats, members_repeat, names_of_device, names_of_wanted};

use crate::declared::names_of;
use crate::parts::{DeviceNames, WantedNames, collect_all, collect_both};
use muen_num::Seq;
use policy_lawful::{NameSet, Refusal, Source};
use std::alloc::Global;

/// A policy whose names are unique for each kind, and those of its names that elements may refer to.
#[derive(Drop)]
pub struct Scope<'a> {
    pub source: &'a Source,
    pub devices: NameSet,
    pub parts: Seq<DeviceNames>,
    pub regions: NameSet,
    pub channels: NameSet,
    pub components: NameSet,
    pub wanted: Seq<WantedNames>,
    pub events: NameSet,
    pub subjects: NameSet,
    pub groups: NameSet,
    ghost unique: { offence_1 source.now ≡ None },
    ghost devices_are: { devices ≡ map (λ d. d.name) source.now.devices },
    ghost parts_are: { parts ≡ map names_of_device source.now.devices },
    ghost regions_are: { regions ≡ map (λ r. r.name) source.now.memory },
    ghost channels_are: { channels ≡ map (λ c. c.name) source.now.channels },
    ghost components_are: { components ≡ map (λ c. c.name) source.now.components },
    ghost wanted_are: { wanted ≡ map names_of_wanted source.now.components },
    ghost events_are: { events ≡ map (λ e. e.name) source.now.events },
    ghost subjects_are: { subjects ≡ map (λ s. s.name) source.now.subjects },
    ghost groups_are: { groups ≡ map (λ g. g.name) source.now.scheduling.groups },
}

// The names of the devices and of their parts; nothing refers to a block.
#[tactic(auto, unfolding(crate::specs::Parts::hardware_repeats), using(crate::proofs::Refusals::one_behind_another))]
fn collect_hardware(alloc: Global, source: &Source) -> Result<(NameSet, Seq<DeviceNames>), Refusal>
    ensures { let p = source.now in Keeps (broken 1 (hardware_repeats p)) (λ x. (x.0 ≡ map (λ d. d.name) p.devices) × (x.1 ≡ map names_of_device p.devices)) result }
{
    names_of(alloc, source.memory_blocks.items())?;
    let devices = names_of(alloc, source.devices.items())?;
    let parts = collect_all(alloc, source.devices.items())?;
    Ok((devices, parts))
}

// Of the components and of what they want.
type Components = (NameSet, Seq<WantedNames>);

// Of the events, of the subjects and of the groups.
type Members = (NameSet, NameSet, NameSet);

// The names of the components and of what they want.
#[tactic(auto, unfolding(crate::specs::Parts::components_repeat), using(crate::proofs::Refusals::one_behind_another))]
fn collect_components(alloc: Global, source: &Source) -> Result<Components, Refusal>
    ensures { let p = source.now in Keeps (broken 1 (components_repeat p)) (AreComponentNames p) result }
{
    let components = names_of(alloc, source.components.items())?;
    let wanted = collect_all(alloc, source.components.items())?;
    Ok((components, wanted))
}

// The names of the events, of the subjects and of the groups.
#[tactic(auto, unfolding(crate::specs::Parts::members_repeat), using(crate::proofs::Refusals::one_behind_another))]
fn collect_members(alloc: Global, source: &Source) -> Result<Members, Refusal>
    ensures { let p = source.now in Keeps (broken 1 (members_repeat p)) (AreMemberNames p) result }
{
    let events = names_of(alloc, source.events.items())?;
    let subjects = names_of(alloc, source.subjects.items())?;
    let groups = names_of(alloc, source.scheduling.groups.items())?;
    Ok((events, subjects, groups))
}

// The names of the components, and behind them those of the events, the subjects and the groups.
#[tactic(auto, using(crate::proofs::Refusals::one_behind_another))]
fn collect_components_and_members(
    alloc: Global,
    source: &Source,
) -> Result<(Components, Members), Refusal>
    ensures { let p = source.now in Keeps (broken 1 (option_or (components_repeat p) (members_repeat p))) (λ x. AreComponentNames p x.0 × AreMemberNames p x.1) result }
{
    let components = collect_components(alloc, source)?;
    Ok((components, collect_members(alloc, source)?))
}

impl<'a> Scope<'a> {
    /// The scope of a policy's elements.
    ///
    /// Answers the refusal of the first name that stands twice among those of a kind (rule 1), and
    /// `NoMemory` where memory was refused.
    #[tactic(auto, using(crate::proofs::Refusals::rule_1))]
    pub fn of(alloc: Global, source: &'a Source) -> Result<Scope<'a>, Refusal>
        ensures { Keeps (broken 1 (offence_1 source.now)) (λ scope. scope.source.now ≡ source.now) result }
    {
        let (devices, parts) = collect_hardware(alloc, source)?;
        let (regions, channels) = collect_both(
            alloc,
            source.memory.items(),
            source.channels.items(),
        )?;
        let ((components, wanted), (events, subjects, groups)) = collect_components_and_members(
            alloc, source,
        )?;
        Ok(Scope {
            source,
            devices,
            parts,
            regions,
            channels,
            components,
            wanted,
            events,
            subjects,
            groups,
        })
    }

    /// The names of the parts of the device at an index.
    #[tactic(auto, using(crate::proofs::DeviceAtIndex::there))]
    pub fn parts_at(&self, index: usize) -> &DeviceNames
        requires { index < length self.now.devices }
        ensures { slice_get (map names_of_device self.now.source.now.devices) index ≡ Some result.now }
    {
        &self.parts.items()[index]
    }

    /// The logical names that the component at an index wants, if there is one.
    #[tactic(auto, using(crate::proofs::DeviceAtIndex::there))]
    pub fn wanted_at(&self, index: usize) -> Option<&WantedNames>
        ensures there { IfSome result (λ names. slice_get (map names_of_wanted self.now.source.now.components) index ≡ Some names.now) }
        ensures nowhere { IfNone result (slice_get (map names_of_wanted self.now.source.now.components) index ≡ None) }
    {
        self.wanted.items().get(index)
    }
}
