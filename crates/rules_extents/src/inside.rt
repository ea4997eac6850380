// Which ranges lie inside others.
ghost use Rattle.std.specs.Prelude.{◌≡◌, ◌<◌, ◌≤◌, length, not, IfOk};
ghost use Rattle.std.specs.List.{AllAdjacentBelow, AllWithin, list_any, position_or_len};
ghost use Rattle.std.specs.List.Sorted.{IsNonDecreasingBy};
ghost use Rattle.rules_extents.specs.Inside.{holds, is_inside};
ghost use Rattle.rules_extents.specs.AddressRange.{IsBelow};

use crate::overlap::{AddressRange, are_below, rising};
use muen_num::NoMemory;
use policy_lawful::Extent;
use std::alloc::Global;

// Whether a range lies wholly in this one.
fn holds(range: AddressRange, extent: &Extent) -> bool
    ensures { result ≡ holds extent.now range }
{
    let end = u128::from(extent.address) + u128::from(extent.size);
    range.address <= extent.address && end <= u128::from(range.address) + u128::from(range.size)
}

/// How many of these ranges begin at an address or before it.
pub(crate) fn count_before(ranges: &[AddressRange], address: u64) -> usize
    requires { IsNonDecreasingBy (λ s. s.address) ranges.now }
    ensures bound { result ≤ length ranges.now }
    ensures before { AllWithin (λ s. s.address ≤ address) ranges.now 0 result }
    ensures behind { AllWithin (λ s. address < s.address) ranges.now result (length ranges.now) }
{
    ranges.partition_point(|range| range.address <= address)
}

// Whether a range lies wholly in one of these, which share no address.
#[tactic(auto, using(crate::proofs::InsideOne::in_none, crate::proofs::InsideOne::in_last))]
fn is_inside(ranges: &[AddressRange], extent: &Extent) -> bool
    requires rising { IsNonDecreasingBy (λ s. s.address) ranges.now }
    requires below { AllAdjacentBelow IsBelow ranges.now (length ranges.now) }
    ensures { result ≡ list_any (holds extent.now) ranges.now }
{
    let count = count_before(ranges, extent.address);
    if count == 0 {
        return false;
    }
    holds(ranges[count - 1], extent)
}

// How many of the first ranges lie each wholly in one of these, where the next one doesn't.
fn count_in(ranges: &[AddressRange], extents: &[Extent]) -> usize
    requires rising { IsNonDecreasingBy (λ s. s.address) ranges.now }
    requires below { AllAdjacentBelow IsBelow ranges.now (length ranges.now) }
    ensures { result ≡ position_or_len (λ e. not (list_any (holds e) ranges.now)) extents.now }
{
    for (index, extent) in extents.iter().enumerate() {
        if !is_inside(ranges, extent) {
            return index;
        }
    }
    extents.len()
}

// Whether a range lies wholly in one of these, in any order, which may share addresses.
fn is_in_any(blocks: &[AddressRange], extent: &Extent) -> bool
    ensures { result ≡ list_any (holds extent.now) blocks.now }
{
    blocks.iter().any(|block| holds(*block, extent))
}

// How many of the first ranges lie each in one of those, where the next one doesn't.
fn count_in_any(blocks: &[AddressRange], extents: &[Extent]) -> usize
    ensures { result ≡ position_or_len (λ e. not (list_any (holds e) blocks.now)) extents.now }
{
    for (index, extent) in extents.iter().enumerate() {
        if !is_in_any(blocks, extent) {
            return index;
        }
    }
    extents.len()
}

/// How many of the first ranges lie each wholly in one of the blocks, where the next one, if there
/// is one, doesn't. Blocks that share addresses are gone through for each range.
///
/// Answers `NoMemory` where memory was refused.
pub fn count_inside(alloc: Global, blocks: &[Extent], extents: &[Extent]) -> Result<usize, NoMemory>
    ensures { IfOk result (λ n. n ≡ position_or_len (λ e. not (is_inside blocks.now e)) extents.now) }
{
    let ranges = rising(alloc, blocks)?;
    if are_below(&ranges) {
        return Ok(count_in(&ranges, extents));
    }
    Ok(count_in_any(&ranges, extents))
}
