//! Devices and components, which have parts with names of their own.
ghost use Rattle.std.specs.Prelude.{◌≡◌, ◌++◌, map};
ghost use Rattle.muen_num.specs.Search.{first_in};
ghost use Rattle.policy_lawful.specs.Keeps.{Keeps};
ghost use Rattle.policy_lawful.specs.Offences.{broken};
ghost use Rattle.policy_lawful.specs.Rules.{logical_names};
ghost use Rattle.policy_names.specs.Parts.{component_repeats, device_repeats, names_of_device, names_of_wanted, repeats};

use crate::declared::{declare, names_hashed, names_of};
use muen_num::Seq;
use policy_lawful::source::{Component, Device};
use policy_lawful::{NameDigest, NameSet, Named, Refusal};
use std::alloc::Global;

/// The names of a device's memory, ports and interrupt lines.
#[derive(Drop)]
pub struct DeviceNames {
    pub memory: NameSet,
    pub io_ports: NameSet,
    pub irqs: NameSet,
}

/// The logical names of a component that want something.
#[derive(Drop)]
pub struct WantedNames {
    pub regions: NameSet,
    pub channels: NameSet,
}

/// An element that has parts with names of their own.
pub trait HasParts {
    ghost use Rattle.std.specs.Prelude.{Option};
    ghost use Rattle.policy_lawful.specs.declared.offence.Offence.{Offence};

    /// The names that may be referred to.
    type Names: Drop;

    /// The offence against rule 1 of its parts.
    ghost repeats: { Self → Option Offence };

    /// Its names.
    ghost names: { Self → Self.Names };

    /// Collects its names. Answers the refusal of the first name that stood before, and
    /// `NoMemory` where memory was refused.
    fn collect(&self, alloc: Global) -> Result<Self::Names, Refusal>
        ensures { Keeps (broken 1 (repeats self.now)) (λ x. x ≡ names self.now) result };
}

impl HasParts for Device {
    type Names = DeviceNames;

    ghost repeats = { device_repeats };

    ghost names = { names_of_device };

    #[tactic(auto, using(crate::proofs::PartNames::in_lists))]
    fn collect(&self, alloc: Global) -> Result<DeviceNames, Refusal> {
        Ok(DeviceNames {
            memory: names_of(alloc, self.memory.items())?,
            io_ports: names_of(alloc, self.io_ports.items())?,
            irqs: names_of(alloc, self.irqs.items())?,
        })
    }
}

impl HasParts for Component {
    type Names = WantedNames;

    ghost repeats = { component_repeats };

    ghost names = { names_of_wanted };

    #[tactic(auto, using(crate::proofs::PartNames::logical))]
    fn collect(&self, alloc: Global) -> Result<WantedNames, Refusal> {
        collect_logical_names(alloc, self)?;
        Ok(WantedNames {
            regions: names_of(alloc, self.memory.items())?,
            channels: names_of(alloc, self.channels.items())?,
        })
    }
}

// All logical names of a component.
#[tactic(auto, using(crate::proofs::PartNames::in_parts))]
fn collect_logical_names(alloc: Global, component: &Component) -> Result<NameSet, Refusal>
    ensures { Keeps (broken 1 (repeats (logical_names component.now))) (λ x. x ≡ logical_names component.now) result }
{
    let provides = component.provides.items();
    let regions = component.memory.items();
    let channels = component.channels.items();
    let mut digest = NameDigest::new();
    digest.add_all(provides);
    digest.add_all(regions);
    digest.add_all(channels);
    let provided = names_hashed(alloc, digest.hash(), provides)?;
    let with_regions = declare(provided, regions)?;
    declare(with_regions, channels)
}

/// The names of the parts of all elements of a list.
///
/// Answers the refusal of the first name that stood before, and `NoMemory` where memory was
/// refused.
#[tactic(auto, using(crate::proofs::Refusals::explains_at))]
pub fn collect_all<T: HasParts>(alloc: Global, items: &[T]) -> Result<Seq<T::Names>, Refusal>
    ensures { Keeps (broken 1 (first_in T.repeats items.now)) (λ xs. xs ≡ map T.names items.now) result }
{
    let mut names = Seq::new(alloc);
    for item in items {
        names.push(item.collect(alloc)?)?;
    }
    Ok(names)
}

// The names of two lists, one behind the other.
#[tactic(auto, using(crate::proofs::PartNames::in_parts))]
fn collect_together<T: Named, U: Named>(
    alloc: Global,
    items: &[T],
    more: &[U],
) -> Result<NameSet, Refusal>
    ensures { Keeps (broken 1 (repeats (map T.name items.now ++ map U.name more.now))) (λ x. x ≡ map T.name items.now ++ map U.name more.now) result }
{
    let mut digest = NameDigest::new();
    digest.add_all(items);
    digest.add_all(more);
    let names = names_hashed(alloc, digest.hash(), items)?;
    declare(names, more)
}

/// The names of two lists, which are unique together.
///
/// Answers the refusal of the first name that stood before, in either, and `NoMemory` where memory
/// was refused.
#[tactic(auto, using(crate::proofs::PartNames::in_parts))]
pub fn collect_both<T: Named, U: Named>(
    alloc: Global,
    items: &[T],
    more: &[U],
) -> Result<(NameSet, NameSet), Refusal>
    ensures { Keeps (broken 1 (repeats (map T.name items.now ++ map U.name more.now))) (λ both. (both.0 ≡ map T.name items.now) × (both.1 ≡ map U.name more.now)) result }
{
    collect_together(alloc, items, more)?;
    Ok((names_of(alloc, items)?, names_of(alloc, more)?))
}
