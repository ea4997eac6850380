//! The lowest pages that no block of memory and no memory of a device has.
ghost use Rattle.std.specs.Prelude.{◌≡◌, ◌+◌, ◌*◌, ◌%◌, ◌<◌, ◌≤◌, ◌^◌, ◌||◌, All, IfOk, map, nat_le, not, option_map};
ghost use Rattle.std.specs.List.{find, sum_by};
ghost use Rattle.dma_emit.specs.Base.{IsBase, IsLowestFree};
ghost use Rattle.dma_tables.specs.declared.file.TheConstants.{MOST_DMA_PAGES};
ghost use Rattle.muen_num.specs.declared.limits.TheConstants.{PAGE, PHYSICAL_END};
ghost use Rattle.policy_lawful.specs.Resolution.{source_of};
ghost use Rattle.policy_lawful.specs.Rules.{extents_of};

use muen_num::limits::PAGE;
use policy_lawful::source::{Block, DeviceMemory};
use policy_lawful::{Extent, Resolved};
use region_alloc::Placed;
use std::alloc::{AllocError, Global};

// The ranges of blocks of memory.
fn block_extents(alloc: Global, blocks: &[Block]) -> Result<Vec<Extent>, AllocError>
    ensures { IfOk result (λ v. v.items ≡ map (λ b. record { name = b.name; address = b.physical_address; size = b.size }) blocks.now) }
{
    blocks
        .iter()
        .map(|block| Extent {
            name: block.name,
            address: block.physical_address,
            size: block.size,
        })
        .collect(alloc)
}

// The ranges of a device's memory.
fn memory_extents(alloc: Global, memory: &[DeviceMemory]) -> Result<Vec<Extent>, AllocError>
    ensures { IfOk result (λ v. v.items ≡ map (λ m. record { name = m.name; address = m.physical_address; size = m.size }) memory.now) }
{
    memory
        .iter()
        .map(|range| Extent {
            name: range.name,
            address: range.physical_address,
            size: range.size,
        })
        .collect(alloc)
}

// The ranges of physical memory that a policy has: its blocks, and its devices' memory.
#[tactic(auto, unfolding(policy_lawful::specs::Resolution::source_of))]
fn extents_of(alloc: Global, policy: &Resolved) -> Result<Vec<Extent>, AllocError>
    ensures { IfOk result (λ v. v.items ≡ extents_of (source_of policy.now)) }
{
    let mut extents = block_extents(alloc, policy.memory_blocks())?;
    for device in policy.devices() {
        let memory = memory_extents(alloc, device.memory.items())?;
        extents.extend_from_slice(&memory)?;
    }
    Ok(extents)
}

// A range with which so many bytes from an address on share some.
fn in_the_way(extents: &[Extent], bytes: u64, address: u64) -> Option<&Extent>
    requires small { address + bytes < 2 ^ 64 }
    requires ends { All (λ e. e.address + e.size ≤ PHYSICAL_END) extents.now }
    ensures { option_map (λ e. e.now) result ≡ find (λ e. not (nat_le (address + bytes) e.address || nat_le (e.address + e.size) address)) extents.now }
{
    extents.iter().find(|extent| !(address + bytes <= extent.address
        || extent.address + extent.size <= address))
}

// The lowest multiple of a page's size from which on so many bytes share none with these ranges.
fn lowest_free(extents: &[Extent], bytes: u64) -> u64
    requires some { 0 < bytes }
    requires aligned { All (λ e. (e.address + e.size) % PAGE ≡ 0) extents.now }
    requires ends { All (λ e. e.address + e.size ≤ PHYSICAL_END) extents.now }
    requires room { sum_by (λ e. e.size + bytes) extents.now + bytes ≤ PHYSICAL_END }
    ensures lowest { IsLowestFree extents.now bytes result }
    ensures low { result + bytes ≤ PHYSICAL_END }
{
    let mut base = 0;
    while let Some(extent) = in_the_way(extents, bytes, base) {
        base = extent.address + extent.size;
    }
    base
}

/// Where so many pages lie that share no address with the policy's blocks and devices' memory.
pub(crate) fn base_of(alloc: Global, placed: &Placed, pages: u64) -> Result<u64, AllocError>
    requires some { 0 < pages }
    requires few { pages < MOST_DMA_PAGES }
    ensures base { IfOk result (IsBase (source_of placed.now.expanded.lawful) (PAGE * pages)) }
    ensures low { IfOk result (λ base. base + PAGE * pages ≤ PHYSICAL_END) }
{
    let extents = extents_of(alloc, placed.expanded().lawful().resolved())?;
    Ok(lowest_free(&extents, PAGE * pages))
}
