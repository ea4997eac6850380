// Rules 5 and 18: windows of a subject, and blocks and devices' memory, that share no address.
ghost use Rattle.std.specs.Prelude.{◌≡◌, ◌++◌, None, map, IfOk, IsSomeAnd, IsTrue};
ghost use Rattle.policy_lawful.specs.ByIndex.{block_extent};
ghost use Rattle.policy_lawful.specs.Resolution.{source_of};
ghost use Rattle.policy_lawful.specs.Rules.{first_overlap, offence_5, offence_18};
ghost use Rattle.policy_views.specs.Parts.{behind_views, front_views};
ghost use Rattle.rules_extents.specs.Parted.{AreProvided, provided_extent, provided_to};
ghost use Rattle.rules_extents.specs.Shared.{StayApart};
ghost use Rattle.rules_extents.specs.Windows.{device_extent, device_extents, overlap_in_subject, physical_extents};

use crate::overlap::first_overlap;
use crate::shared::Apart;
use crate::windows::view_extents;
use muen_num::NoMemory;
use policy_lawful::resolved::{ComponentUse, Subject};
use policy_lawful::source::{Block, Component, Device, DeviceMemory, Provided};
use policy_lawful::{Extent, Offence, View};
use policy_views::Linked;
use std::alloc::{AllocError, Global};

// A block as a named range of physical memory.
fn block_extent(block: &Block) -> Extent
    ensures { result ≡ block_extent block.now }
{
    Extent {
        name: block.name,
        address: block.physical_address,
        size: block.size,
    }
}

/// The blocks, as ranges.
pub(crate) fn block_extents(alloc: Global, blocks: &[Block]) -> Result<Vec<Extent>, AllocError>
    ensures { IfOk result (λ v. v.items ≡ map block_extent blocks.now) }
{
    blocks.iter().map(block_extent).collect(alloc)
}

// Memory of a device as a named range of physical memory.
fn device_extent(memory: &DeviceMemory) -> Extent
    ensures { result ≡ device_extent memory.now }
{
    Extent {
        name: memory.name,
        address: memory.physical_address,
        size: memory.size,
    }
}

fn memory_extents(alloc: Global, memory: &[DeviceMemory]) -> Result<Vec<Extent>, AllocError>
    ensures { IfOk result (λ v. v.items ≡ map device_extent memory.now) }
{
    memory.iter().map(device_extent).collect(alloc)
}

/// The memory of all devices, as ranges.
pub fn device_extents(alloc: Global, devices: &[Device]) -> Result<Vec<Extent>, NoMemory>
    ensures { IfOk result (λ v. v.items ≡ device_extents devices.now) }
{
    let mut extents = Vec::new(alloc);
    for device in devices {
        let memory = memory_extents(alloc, device.memory.items())?;
        extents.extend_from_slice(&memory)?;
    }
    Ok(extents)
}

// The blocks, then all devices' memory.
fn physical_extents(alloc: Global, policy: &Linked) -> Result<Vec<Extent>, NoMemory>
    ensures { IfOk result (λ v. v.items ≡ physical_extents policy.now.memory_blocks policy.now.devices) }
{
    let mut extents = block_extents(alloc, policy.memory_blocks())?;
    let devices = device_extents(alloc, policy.devices())?;
    extents.extend_from_slice(&devices)?;
    Ok(extents)
}

/// Rule 18: the first two of the blocks and the devices' memory that share an address.
///
/// Answers `NoMemory` where memory was refused.
#[tactic(auto, using(crate::proofs::RangesByIndex::blocks_apart))]
pub fn blocks_apart(alloc: Global, policy: &Linked) -> Result<Option<Offence>, NoMemory>
    ensures { IfOk result (λ o. o ≡ offence_18 (source_of policy.now)) }
{
    let extents = physical_extents(alloc, policy)?;
    first_overlap(alloc, &extents)
}

// ---- windows

// A region that a component provides as a named range of guest addresses.
fn provided_extent(provided: &Provided) -> Extent
    ensures { result ≡ provided_extent provided.now }
{
    Extent {
        name: provided.logical,
        address: provided.virtual_address,
        size: provided.size,
    }
}

fn provided_extents(alloc: Global, provides: &[Provided]) -> Result<Vec<Extent>, AllocError>
    ensures { IfOk result (λ v. v.items ≡ map provided_extent provides.now) }
{
    provides.iter().map(provided_extent).collect(alloc)
}

// Of each component the regions that it provides, where no two share an address.
fn all_provided(alloc: Global, components: &[Component]) -> Result<Vec<Option<Apart>>, NoMemory>
    ensures { IfOk result (λ v. AreProvided v.items components.now) }
{
    let mut all = Vec::new(alloc);
    for component in components {
        let extents = provided_extents(alloc, component.provides.items())?;
        all.push(Apart::of(alloc, &extents)?)?;
    }
    Ok(all)
}

// All windows of a subject, with the ranges of those in front of the provided ones, and behind them.
fn all_extents(
    alloc: Global,
    front: &[Extent],
    provides: &[Provided],
    behind: &[Extent],
) -> Result<Vec<Extent>, NoMemory>
    ensures { IfOk result (λ v. v.items ≡ front.now ++ map provided_extent provides.now ++ behind.now) }
{
    let mut extents: Vec<Extent> = Vec::new(alloc);
    extents.extend_from_slice(front)?;
    let provided = provided_extents(alloc, provides)?;
    extents.extend_from_slice(&provided)?;
    extents.extend_from_slice(behind)?;
    Ok(extents)
}

// Whether the windows of a subject are told to be disjoint by those that its component provides, which
// are gone through for the component alone.
fn are_told_apart(
    alloc: Global,
    provided: &[Option<Apart>],
    used: &Option<ComponentUse>,
    front: &[Extent],
    behind: &[Extent],
) -> Result<bool, NoMemory>
    ensures { IfOk result (λ b. IsTrue b → IsSomeAnd (provided_to provided.now used.now) (λ ranges. StayApart ranges front.now behind.now)) }
{
    match used {
        None => Ok(false),
        Some(used) => match provided.get(used.used) {
            None => Ok(false),
            Some(kept) => match kept {
                None => Ok(false),
                Some(apart) => apart.stay_apart(alloc, front, behind),
            },
        },
    }
}

// The first two of a subject's windows that share an address.
fn of_subject(
    alloc: Global,
    policy: &Linked,
    provided: &[Option<Apart>],
    subject: &Subject,
    front: &[View],
    behind: &[View],
) -> Result<Option<Offence>, NoMemory>
    requires front { front.now ≡ front_views policy.now subject.now }
    requires behind { behind.now ≡ behind_views policy.now subject.now }
    requires provided { AreProvided provided.now policy.now.components }
    ensures { IfOk result (λ o. o ≡ overlap_in_subject policy.now subject.now) }
{
    let front = view_extents(alloc, front)?;
    let behind = view_extents(alloc, behind)?;
    if are_told_apart(alloc, provided, &subject.component, &front, &behind)? {
        return Ok(None);
    }
    let extents = all_extents(alloc, &front, policy.provided_by(subject), &behind)?;
    first_overlap(alloc, &extents)
}

/// Rule 5: the first two windows of a subject that share an address.
///
/// Answers `NoMemory` where memory was refused.
pub fn windows_apart(alloc: Global, policy: &Linked) -> Result<Option<Offence>, NoMemory>
    ensures { IfOk result (λ o. o ≡ offence_5 (source_of policy.now)) }
{
    let provided = all_provided(alloc, policy.components())?;
    for (index, subject) in policy.subjects().iter().enumerate() {
        let (front, behind) = (policy.front(index), policy.behind(index));
        if let Some(offence) = of_subject(alloc, policy, &provided, subject, front, behind)? {
            return Ok(Some(offence));
        }
    }
    Ok(None)
}
