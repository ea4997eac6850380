// Rule 19: fixed regions lie inside blocks, and share no address.
ghost use Rattle.std.specs.Prelude.{◌≡◌, IfOk};
ghost use Rattle.policy_lawful.specs.MoreRules.{fixed_extent, offence_19};
ghost use Rattle.policy_lawful.specs.Resolution.{source_of};
ghost use Rattle.rules_extents.specs.Fixed.{block_extents, fixed_extents};

use crate::apart::block_extents;
use crate::inside::count_inside;
use crate::overlap::first_fault;
use muen_num::NoMemory;
use policy_lawful::source::Region;
use policy_lawful::{Extent, Offence};
use policy_views::Linked;
use std::alloc::{AllocError, Global};

// A region with a fixed address, as a named range of physical memory.
fn fixed_extent(region: &Region) -> Option<Extent>
    ensures { result ≡ fixed_extent region.now }
{
    let address = region.physical_address?;
    Some(Extent {
        name: region.name,
        address,
        size: region.size,
    })
}

fn fixed_extents(alloc: Global, memory: &[Region]) -> Result<Vec<Extent>, AllocError>
    ensures { IfOk result (λ v. v.items ≡ fixed_extents memory.now) }
{
    memory.iter().filter_map(fixed_extent).collect(alloc)
}

/// Rule 19: the first fixed region that lies in no block, or the first two that share an address.
///
/// Answers `NoMemory` where memory was refused.
#[tactic(auto, using(crate::proofs::FixedByExtent::inside_within, crate::proofs::FixedByExtent::fixed_by_extent))]
pub fn fixed_regions(alloc: Global, policy: &Linked) -> Result<Option<Offence>, NoMemory>
    ensures { IfOk result (λ o. o ≡ offence_19 (source_of policy.now)) }
{
    let blocks = block_extents(alloc, policy.memory_blocks())?;
    let extents = fixed_extents(alloc, policy.memory())?;
    let inside = count_inside(alloc, &blocks, &extents)?;
    first_fault(alloc, &extents, inside)
}
