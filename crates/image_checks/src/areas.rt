//! The MSR area of each subject.
ghost use Rattle.std.specs.Prelude.{◌≡◌, ◌≢◌, ◌≤◌, ◌<◌, ◌++◌, ℕ, EachIndex, IfOk, MatchOption, OnOk, drop, length, map, slice_index, take, zip};
ghost use Rattle.std.specs.List.Sorted.{IsPermutation};
ghost use Rattle.image_checks.specs.Agree.{AreaAgrees, indices_in, indices_of};
ghost use Rattle.image_checks.specs.Firsts.{Decides, IsFirstFailing};
ghost use Rattle.image_soundness.specs.Memory.{bytes_at};
ghost use Rattle.image_soundness.specs.Sound.{HasArea};
ghost use Rattle.machine_layout.specs.Exits.{area_index, area_value};
ghost use Rattle.machine_layout.specs.Memory.{le_number};
ghost use Rattle.muen_num.specs.Range.{numbers_below};
ghost use Rattle.policy_lawful.specs.Resolution.{source_of};

use crate::span_pages::page_at;
use expand_kernel::{Expanded, Grants};
use image_pack::{Image, Parts, SubjectPart};
use machine_layout::{AREA_ENTRY, AREA_VALUE};
use muen_num::NoMemory;
use policy_lawful::MsrGrant;
use std::alloc::{AllocError, Global};

// The byte at an index, and 0 past the end.
fn byte_or_zero(bytes: &[u8], at: usize) -> u8
    ensures { result ≡ slice_index bytes.now at }
{
    match bytes.get(at) {
        None => 0,
        Some(byte) => *byte,
    }
}

// The number of so many bytes from an index on, the lowest first; bytes past the end are zeros.
fn number_at(bytes: &[u8], at: usize, count: usize) -> u64
    requires few { count ≤ 8 }
    requires near { at ≤ 65536 }
    ensures { result ≡ le_number (take count (drop at bytes.now)) }
{
    let mut value: u64 = 0;
    let mut left = count;
    while left > 0 {
        left -= 1;
        value = value * 256 + u64::from(byte_or_zero(bytes, at + left));
    }
    value
}

// The MSR of an entry of an area.
#[tactic(auto, unfolding(machine_layout::specs::Exits::area_index))]
fn index_at(area: &[u8], entry: u8) -> u64
    ensures { result ≡ area_index area.now entry }
{
    number_at(area, AREA_ENTRY as usize * usize::from(entry), 4)
}

// The value of an entry.
#[tactic(auto, unfolding(machine_layout::specs::Exits::area_value))]
fn value_at(area: &[u8], entry: u8) -> u64
    ensures { result ≡ area_value area.now entry }
{
    number_at(
        area,
        AREA_ENTRY as usize * usize::from(entry) + AREA_VALUE as usize,
        8,
    )
}

// Whether so many entries of an area have the value 0.
fn are_zeros(area: &[u8], count: u8) -> bool
    ensures { Decides ((n : ℕ) → n < count → area_value area.now n ≡ 0) result }
{
    for entry in 0..count {
        if value_at(area, entry) != 0 {
            return false;
        }
    }
    true
}

// Appends the MSRs of a grant.
fn push_indices(found: &mut Vec<u64>, grant: &MsrGrant) -> Result<(), AllocError>
    ensures { OnOk result (found.new.items ≡ found.old.items ++ indices_of grant.now) }
{
    let start = u64::from(grant.start);
    for k in 0..(u64::from(grant.end) + 1).saturating_sub(start) {
        found.push(start + k)?;
    }
    Ok(())
}

// The MSRs that are granted, in the grants' order.
fn indices_in(alloc: Global, msrs: &[MsrGrant]) -> Result<Vec<u64>, AllocError>
    ensures { IfOk result (λ v. v.items ≡ indices_in msrs.now) }
{
    let mut found = Vec::new(alloc);
    for grant in msrs {
        push_indices(&mut found, grant)?;
    }
    Ok(found)
}

// The first place of an MSR in a list.
fn place_of(msrs: &[u64], index: u64) -> Option<usize>
    ensures { MatchOption result (EachIndex msrs.now (λ k. slice_index msrs.now k ≢ index)) (λ k. (k < length msrs.now) × (slice_index msrs.now k ≡ index)) }
{
    for (place, msr) in msrs.iter().enumerate() {
        if *msr == index {
            return Some(place);
        }
    }
    None
}

// Whether the MSRs of an area's entries are these, in some order.
fn has_each(granted: Vec<u64>, area: &[u8], count: u8) -> bool
    requires { length granted.items ≡ count }
    ensures { Decides (IsPermutation granted.items (map (area_index area.now) (numbers_below count))) result }
{
    let mut left = granted;
    for entry in 0..count {
        let index = index_at(area, entry);
        match place_of(&left, index) {
            None => return false,
            Some(at) => {
                left.remove(at);
            }
        }
    }
    true
}

// Whether the area of a subject agrees with what is granted to it.
fn area_agrees(
    alloc: Global,
    image: &Image,
    part: &SubjectPart,
    granted: &Grants,
) -> Result<bool, NoMemory>
    ensures { IfOk result (λ b. Decides (AreaAgrees (bytes_at image.now part.now.area) part.now.msrs granted.now.msrs) b) }
{
    let msrs = indices_in(alloc, granted.msrs.items())?;
    let area = page_at(alloc, image, part.area, 0)?;
    if msrs.len() != usize::from(part.msrs) {
        return Ok(false);
    }
    if !are_zeros(&area, part.msrs) {
        return Ok(false);
    }
    Ok(has_each(msrs, &area, part.msrs))
}

/// The first subject, of those that both have, whose MSR area hasn't an entry for each MSR that the
/// policy grants it, with the value 0, or has others.
///
/// # Errors
/// Memory is refused.
pub fn first_by_area(
    alloc: Global,
    expanded: &Expanded,
    image: &Parts,
) -> Result<Option<usize>, NoMemory>
    ensures { IfOk result (IsFirstFailing (λ e. HasArea image.now e.0 e.1) (zip (source_of expanded.now.lawful).subjects image.now.subjects)) }
{
    let grants = expanded.grants();
    let image = image.image();
    let parts = image.subjects.items();
    for index in 0..grants.len().min(parts.len()) {
        if !area_agrees(alloc, image, &parts[index], &grants[index])? {
            return Ok(Some(index));
        }
    }
    Ok(None)
}
