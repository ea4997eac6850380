// Which two of many ranges overlap first.
ghost use Rattle.std.specs.Prelude.{◌≡◌, ◌+◌, ◌<◌, ◌≤◌, ◌↔◌, true, length, map, take, nat_le, slice_get, is_some, option_map, None, IfOk, IsTrue};
ghost use Rattle.std.specs.Option.{option_or};
ghost use Rattle.std.specs.List.{AllAdjacentBelow};
ghost use Rattle.std.specs.List.Sorted.{IsPermutation, IsNonDecreasingBy};
ghost use Rattle.muen_num.specs.Search.{first_in};
ghost use Rattle.policy_lawful.specs.Offences.{alone};
ghost use Rattle.policy_lawful.specs.Rules.{are_apart, overlapping, first_overlap};
ghost use Rattle.rules_extents.specs.AddressRange.{IsBelow, address_range_of, sum_of_ends};

use muen_num::{NoMemory, first};
use policy_lawful::{Extent, Offence};
use std::alloc::{AllocError, Global};

/// A range without its name.
#[derive(Clone, Copy)]
pub(crate) struct AddressRange {
    pub address: u64,
    pub size: u64,
}

impl AddressRange {
    /// The range of an extent.
    pub(crate) fn of(extent: &Extent) -> AddressRange
        ensures { result ≡ address_range_of extent.now }
    {
        AddressRange {
            address: extent.address,
            size: extent.size,
        }
    }

    /// The sum of the addresses where it begins and where it ends. Of ranges that share no address the
    /// one with less of it is the lower one, also where one is empty.
    fn sum_of_ends(self) -> u128
        ensures { result ≡ sum_of_ends self }
    {
        2 * u128::from(self.address) + u128::from(self.size)
    }

    /// Whether it ends at or before the address of the other.
    pub(crate) fn is_below(self, other: AddressRange) -> bool
        ensures { result ≡ nat_le (self.address + self.size) other.address }
    {
        u128::from(self.address) + u128::from(self.size) <= u128::from(other.address)
    }
}

// Whether two ranges share no address.
fn are_apart(a: &Extent, b: &Extent) -> bool
    ensures { result ≡ are_apart a.now b.now }
{
    let (a, b) = (AddressRange::of(a), AddressRange::of(b));
    a.is_below(b) || b.is_below(a)
}

// The ranges in their order, without their names.
fn ranges(alloc: Global, extents: &[Extent]) -> Result<Vec<AddressRange>, AllocError>
    ensures { IfOk result (λ v. v.items ≡ map address_range_of extents.now) }
{
    extents.iter().map(AddressRange::of).collect(alloc)
}

/// The ranges in the order of the sums of their ends.
pub(crate) fn rising(alloc: Global, extents: &[Extent]) -> Result<Vec<AddressRange>, AllocError>
    ensures moved { IfOk result (λ v. IsPermutation (map address_range_of extents.now) v.items) }
    ensures rising { IfOk result (λ v. IsNonDecreasingBy sum_of_ends v.items) }
{
    let mut rising = ranges(alloc, extents)?;
    rising.sort_unstable_by_key(|range| range.sum_of_ends());
    Ok(rising)
}

/// Whether each ends at or before the address of the next.
pub(crate) fn are_below(ranges: &[AddressRange]) -> bool
    ensures { IsTrue result ↔ AllAdjacentBelow IsBelow ranges.now (length ranges.now) }
{
    ranges.is_sorted_by(|a, b| a.is_below(*b))
}

/// Whether any two share an address.
#[tactic(auto, using(crate::proofs::Overlaps::overlap_is))]
pub(crate) fn overlap(alloc: Global, extents: &[Extent]) -> Result<bool, NoMemory>
    ensures { IfOk result (λ b. b ≡ is_some (first_overlap extents.now)) }
{
    let ranges = rising(alloc, extents)?;
    let below = are_below(&ranges);
    Ok(!below)
}

// How many of the first ranges share no address, where one more does.
#[tactic(auto, using(crate::proofs::Overlaps::no_overlap_in_none, crate::proofs::Overlaps::some_within, crate::proofs::Overlaps::overlap_in_all))]
fn longest_apart(alloc: Global, extents: &[Extent]) -> Result<usize, NoMemory>
    requires { is_some (first_overlap extents.now) ≡ true }
    ensures within { IfOk result (λ n. n < length extents.now) }
    ensures apart { IfOk result (λ n. first_overlap (take n extents.now) ≡ None) }
    ensures one_more { IfOk result (λ n. is_some (first_overlap (take (n + 1) extents.now)) ≡ true) }
{
    let mut apart = 0;
    let mut end = extents.len();
    while end - apart > 1 {
        let middle = apart + (end - apart) / 2;
        if overlap(alloc, &extents[..middle])? {
            end = middle;
        } else {
            apart = middle;
        }
    }
    Ok(apart)
}

// The first of these ranges that shares an address with the last.
fn earlier(before: &[Extent], last: &Extent) -> Option<Offence>
    ensures { result ≡ first_in (λ b. overlapping b last.now) before.now }
{
    first(before, |earlier| {
        Offence {
            first: earlier.name,
            second: last.name,
        }
        .unless(are_apart(earlier, last))
    })
}

/// The first two of these ranges that share an address: of those with the least later one, the
/// one with the least earlier one.
///
/// Answers `NoMemory` where memory was refused.
pub fn first_overlap(alloc: Global, extents: &[Extent]) -> Result<Option<Offence>, NoMemory>
    ensures { IfOk result (λ o. o ≡ first_overlap extents.now) }
{
    if !overlap(alloc, extents)? {
        return Ok(None);
    }
    let last = longest_apart(alloc, extents)?;
    Ok(earlier(&extents[..last], &extents[last]))
}

/// The first offence of these ranges, where the first `sound` of them keep the conditions of their
/// own, and the next one, if there is one, doesn't: the first two of the sound ones that share an
/// address, else the next one alone.
///
/// Answers `NoMemory` where memory was refused.
pub fn first_fault(
    alloc: Global,
    extents: &[Extent],
    sound: usize,
) -> Result<Option<Offence>, NoMemory>
    requires { sound ≤ length extents.now }
    ensures { IfOk result (λ o. o ≡ option_or (first_overlap (take sound extents.now)) (option_map (λ e. alone e.name) (slice_get extents.now sound))) }
{
    if let Some(offence) = first_overlap(alloc, &extents[..sound])? {
        return Ok(Some(offence));
    }
    match extents.get(sound) {
        None => Ok(None),
        Some(unsound) => Ok(Some(Offence::alone(unsound.name))),
    }
}
