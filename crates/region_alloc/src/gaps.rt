//! The memory that no region has.
ghost use Rattle.std.specs.Prelude.{◌≡◌, ◌+◌, ◌<◌, ◌^◌, ◌++◌, map, IfOk, OnOk, All};
ghost use Rattle.std.specs.List.{flat_map, list_any};
ghost use Rattle.region_alloc.specs.Gaps.{IsLeast, fits_in_gap, gap_of, has_room, holds, lower, remaining_of, some_gap};

use crate::spot::Spot;
use expand_kernel::Region;
use policy_lawful::source::Block;
use std::alloc::{AllocError, Global};

/// Bytes that no region has: those from the address `start` on, before the address `end`.
#[derive(Clone, Copy)]
pub(crate) struct Gap {
    pub start: u64,
    pub end: u64,
}

impl Gap {
    // A whole block.
    fn of(block: &Block) -> Gap
        requires { block.now.physical_address + block.now.size < 2 ^ 64 }
        ensures { result ≡ gap_of block.now }
    {
        Gap {
            start: block.physical_address,
            end: block.physical_address + block.size,
        }
    }

    // Whether so many bytes from an address on lie in it.
    fn holds(self, address: u64, size: u64) -> bool
        ensures { result ≡ holds self address size }
    {
        self.start <= address && u128::from(address) + u128::from(size) <= u128::from(self.end)
    }

    // The lowest multiple of an alignment from which on so many bytes lie in it.
    fn first_fit(self, alignment: u64, size: u64) -> Option<u64>
        requires { 0 < alignment }
        ensures { IsLeast (fits_in_gap alignment size self) result }
    {
        match self.start.checked_next_multiple_of(alignment) {
            None => None,
            Some(address) => {
                if self.holds(address, size) {
                    Some(address)
                } else {
                    None
                }
            }
        }
    }
}

// The lower of two addresses, either of which may be missing.
fn lower(a: Option<u64>, b: Option<u64>) -> Option<u64>
    ensures { result ≡ lower a b }
{
    match (a, b) {
        (None, b) => b,
        (Some(a), None) => Some(a),
        (Some(a), Some(b)) => Some(a.min(b)),
    }
}

// The lowest multiple of an alignment from which on so many bytes lie in one of the gaps.
fn first_fit(gaps: &[Gap], alignment: u64, size: u64) -> Option<u64>
    requires { 0 < alignment }
    ensures { IsLeast (λ a. list_any (λ g. fits_in_gap alignment size g a) gaps.now) result }
{
    let mut lowest = None;
    for gap in gaps {
        lowest = lower(lowest, gap.first_fit(alignment, size));
    }
    lowest
}

// Whether so many bytes from an address on lie in one of the gaps.
fn is_free(gaps: &[Gap], address: u64, size: u64) -> bool
    ensures { result ≡ list_any (λ g. holds g address size) gaps.now }
{
    gaps.iter().any(|gap| gap.holds(address, size))
}

/// The lowest address where a region may be, where these gaps are free.
#[tactic(auto, using(crate::proofs::Rooms::room_anywhere, crate::proofs::Rooms::room_own, crate::proofs::Rooms::no_room_own))]
pub(crate) fn lowest(gaps: &[Gap], region: &Region) -> Option<u64>
    requires { 0 < region.now.alignment }
    ensures { IsLeast (has_room gaps.now region.now) result }
{
    match region.fixed {
        None => first_fit(gaps, region.alignment, region.size),
        Some(own) => {
            if is_free(gaps, own, region.size) {
                Some(own)
            } else {
                None
            }
        }
    }
}

/// The blocks, each a gap.
pub(crate) fn gaps_of(alloc: Global, blocks: &[Block]) -> Result<Vec<Gap>, AllocError>
    requires { All (λ b. b.physical_address + b.size < 2 ^ 64) blocks.now }
    ensures { IfOk result (λ v. v.items ≡ map gap_of blocks.now) }
{
    let mut gaps = Vec::new(alloc);
    for block in blocks {
        gaps.push(Gap::of(block))?;
    }
    Ok(gaps)
}

// Adds the bytes from an address on before another, if there are any.
fn push_gap(gaps: &mut Vec<Gap>, start: u64, end: u64) -> Result<(), AllocError>
    ensures { OnOk result (gaps.new.items ≡ gaps.old.items ++ some_gap start end) }
{
    if start < end {
        gaps.push(Gap { start, end })?;
    }
    Ok(())
}

/// What a region that is placed leaves of the gaps.
pub(crate) fn remaining_of(alloc: Global, gaps: &[Gap], spot: Spot) -> Result<Vec<Gap>, AllocError>
    requires { spot.address + spot.size < 2 ^ 64 }
    ensures { IfOk result (λ v. v.items ≡ flat_map (remaining_of spot) gaps.now) }
{
    let mut remaining = Vec::new(alloc);
    for gap in gaps {
        push_gap(&mut remaining, gap.start, gap.end.min(spot.address))?;
        push_gap(
            &mut remaining,
            gap.start.max(spot.address + spot.size),
            gap.end,
        )?;
    }
    Ok(remaining)
}
