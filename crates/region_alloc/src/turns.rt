//! The order in which regions are placed.
ghost use Rattle.std.specs.Prelude.{◌≡◌, filter, IfOk, OnOk, not};
ghost use Rattle.std.specs.List.{enumerate_from};
ghost use Rattle.region_alloc.specs.Placement.{by_size, in_turn, has_fixed_address};

use expand_kernel::Region;
use std::alloc::{AllocError, Global};
use std::cmp::Reverse;

// The regions that have an address of their own, each with its number.
fn fixed(alloc: Global, regions: &[Region]) -> Result<Vec<(usize, Region)>, AllocError>
    ensures { IfOk result (λ v. v.items ≡ filter (λ x. has_fixed_address x.1) (enumerate_from 0 regions.now)) }
{
    regions
        .iter()
        .copied()
        .enumerate()
        .filter(|x| x.1.fixed.is_some())
        .collect(alloc)
}

// Those that have none, each with its number.
fn others(alloc: Global, regions: &[Region]) -> Result<Vec<(usize, Region)>, AllocError>
    ensures { IfOk result (λ v. v.items ≡ filter (λ x. not (has_fixed_address x.1)) (enumerate_from 0 regions.now)) }
{
    regions
        .iter()
        .copied()
        .enumerate()
        .filter(|x| x.1.fixed.is_none())
        .collect(alloc)
}

// By size downwards; of the same size the earlier stays first.
fn sort(regions: &mut Vec<(usize, Region)>) -> Result<(), AllocError>
    ensures { OnOk result (regions.new.items ≡ by_size regions.old.items) }
{
    regions.sort_by_key(|x| Reverse(x.1.size))?;
    Ok(())
}

/// The regions in the order in which they are placed, each with its number: those that have an
/// address of their own by number, then the others by size downwards and then by number.
#[tactic(auto, unfolding(crate::specs::Placement::in_turn))]
pub(crate) fn in_turn(alloc: Global, regions: &[Region]) -> Result<Vec<(usize, Region)>, AllocError>
    ensures { IfOk result (λ v. v.items ≡ in_turn regions.now) }
{
    let mut turns = fixed(alloc, regions)?;
    let mut others = others(alloc, regions)?;
    sort(&mut others)?;
    turns.extend_from_slice(&others)?;
    Ok(turns)
}
