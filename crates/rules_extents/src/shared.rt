//! Ranges that are met again and again beside others.
ghost use Rattle.std.specs.Prelude.{◌≡◌, ◌≤◌, ◌++◌, true, length, IfOk, IfSome, IsTrue};
ghost use Rattle.std.specs.List.{All, AllAdjacentBelow};
ghost use Rattle.std.specs.List.Sorted.{IsNonDecreasingBy};
ghost use Rattle.rules_extents.specs.AddressRange.{IsApart, IsBelow, address_range_of};
ghost use Rattle.rules_extents.specs.Shared.{AreKept, IsBehind, IsInFront, StayApart};

use crate::inside::count_before;
use crate::overlap::{AddressRange, are_below, overlap, rising};
use muen_num::NoMemory;
use policy_lawful::Extent;
use std::alloc::{AllocError, Global};
use std::marker::Model;

/// Ranges that share no address, in the order of their addresses, so that others can be held against
/// them without going through all.
#[derive(Drop)]
pub struct Apart {
    ranges: Vec<AddressRange>,
}

impl Model for Apart {
    ghost use Rattle.std.specs.Prelude.{List, length};
    ghost use Rattle.std.specs.List.{AllAdjacentBelow};
    ghost use Rattle.std.specs.List.Sorted.{IsNonDecreasingBy};
    ghost use Rattle.rules_extents.specs.AddressRange.{IsBelow};
    ghost use Rattle.rules_extents.specs.declared.overlap.AddressRange.{AddressRange};

    ghost Value = { List AddressRange };

    ghost view = { λ a. a.ranges.items };

    ghost invariant = { λ a. IsNonDecreasingBy (λ s. s.address) a.ranges.items × AllAdjacentBelow IsBelow a.ranges.items (length a.ranges.items) };
}

// Whether a range is behind the last of so many of the first ones.
fn is_behind(ranges: &[AddressRange], count: usize, range: AddressRange) -> bool
    requires { count ≤ length ranges.now }
    ensures { IsTrue result → IsBehind ranges.now count range }
{
    count == 0 || ranges[count - 1].is_below(range)
}

// Whether it is in front of those after so many.
fn is_in_front(ranges: &[AddressRange], count: usize, range: AddressRange) -> bool
    requires { count ≤ length ranges.now }
    ensures { IsTrue result → IsInFront ranges.now count range }
{
    count == ranges.len() || range.is_below(ranges[count])
}

// Whether a range shares no address with any of these.
#[tactic(auto, using(crate::proofs::Beside::all_apart))]
fn is_clear(ranges: &[AddressRange], extent: &Extent) -> bool
    requires rising { IsNonDecreasingBy (λ s. s.address) ranges.now }
    requires below { AllAdjacentBelow IsBelow ranges.now (length ranges.now) }
    ensures { IsTrue result → All (λ s. IsApart s (address_range_of extent.now)) ranges.now }
{
    let count = count_before(ranges, extent.address);
    let range = AddressRange::of(extent);
    is_behind(ranges, count, range) && is_in_front(ranges, count, range)
}

// Whether none of these ranges shares an address with any of those.
fn are_clear(ranges: &[AddressRange], extents: &[Extent]) -> bool
    requires rising { IsNonDecreasingBy (λ s. s.address) ranges.now }
    requires below { AllAdjacentBelow IsBelow ranges.now (length ranges.now) }
    ensures { IsTrue result → All (λ e. All (λ s. IsApart s (address_range_of e)) ranges.now) extents.now }
{
    for extent in extents {
        if !is_clear(ranges, extent) {
            return false;
        }
    }
    true
}

// One list behind another.
fn joined(alloc: Global, front: &[Extent], behind: &[Extent]) -> Result<Vec<Extent>, AllocError>
    ensures { IfOk result (λ v. v.items ≡ front.now ++ behind.now) }
{
    let mut all: Vec<Extent> = Vec::new(alloc);
    all.extend_from_slice(front)?;
    all.extend_from_slice(behind)?;
    Ok(all)
}

impl Apart {
    /// Keeps these ranges, where no two share an address.
    ///
    /// Answers `NoMemory` where memory was refused.
    pub fn of(alloc: Global, extents: &[Extent]) -> Result<Option<Apart>, NoMemory>
        ensures { IfOk result (λ o. IfSome o (λ apart. AreKept apart extents.now)) }
    {
        let ranges = rising(alloc, extents)?;
        if are_below(&ranges) {
            return Ok(Some(Apart { ranges }));
        }
        Ok(None)
    }

    /// Whether these ranges in front of the kept ones, and those behind them, share no address with
    /// them nor with each other.
    ///
    /// Answers `NoMemory` where memory was refused.
    #[tactic(auto, using(crate::proofs::Beside::stay_apart))]
    pub fn stay_apart(
        &self,
        alloc: Global,
        front: &[Extent],
        behind: &[Extent],
    ) -> Result<bool, NoMemory>
        ensures { IfOk result (λ b. IsTrue b → StayApart self.now front.now behind.now) }
    {
        let others = joined(alloc, front, behind)?;
        if overlap(alloc, &others)? {
            return Ok(false);
        }
        Ok(are_clear(&self.ranges, &others))
    }
}
