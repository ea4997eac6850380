//! What a device has that is granted to subjects.
ghost use Rattle.std.specs.Prelude.{◌≡◌, length, IfOk};
ghost use Rattle.rules_devices.specs.Grants.{indexes_granted, part_names};
ghost use Rattle.rules_devices.specs.declared.resource.Resource.TheVariants.{Memory, IoPorts, Irqs};

use policy_lawful::resolved::DeviceUse;
use policy_lawful::source::Device;
use std::alloc::{AllocError, Global};

/// A kind of what a device has.
#[derive(Clone, Copy)]
pub(crate) enum Resource {
    Memory,
    IoPorts,
    Irqs,
}

// The indexes of a device's memory that a use grants.
fn memory_indexes(alloc: Global, granted: &DeviceUse) -> Result<Vec<usize>, AllocError>
    ensures { IfOk result (λ v. v.items ≡ indexes_granted Memory granted.now) }
{
    granted
        .memory
        .items()
        .iter()
        .map(|window| window.memory)
        .collect(alloc)
}

// The indexes of its ports.
fn port_indexes(alloc: Global, granted: &DeviceUse) -> Result<Vec<usize>, AllocError>
    ensures { IfOk result (λ v. v.items ≡ indexes_granted IoPorts granted.now) }
{
    granted.io_ports.items().iter().copied().collect(alloc)
}

// The indexes of its interrupt lines.
fn irq_indexes(alloc: Global, granted: &DeviceUse) -> Result<Vec<usize>, AllocError>
    ensures { IfOk result (λ v. v.items ≡ indexes_granted Irqs granted.now) }
{
    granted
        .irqs
        .items()
        .iter()
        .map(|line| line.irq)
        .collect(alloc)
}

impl Resource {
    /// How many of this kind a device has.
    #[tactic(auto, using(crate::proofs::GrantsByIndex::many_parts))]
    pub(crate) fn count(self, device: &Device) -> usize
        ensures { result ≡ length (part_names self device.now) }
    {
        match self {
            Resource::Memory => device.memory.len(),
            Resource::IoPorts => device.io_ports.len(),
            Resource::Irqs => device.irqs.len(),
        }
    }

    /// The indexes of this kind that a use of a device grants.
    ///
    /// Answers `AllocError` where memory was refused.
    pub(crate) fn indexes(
        self,
        alloc: Global,
        granted: &DeviceUse,
    ) -> Result<Vec<usize>, AllocError>
        ensures { IfOk result (λ v. v.items ≡ indexes_granted self granted.now) }
    {
        match self {
            Resource::Memory => memory_indexes(alloc, granted),
            Resource::IoPorts => port_indexes(alloc, granted),
            Resource::Irqs => irq_indexes(alloc, granted),
        }
    }
}
