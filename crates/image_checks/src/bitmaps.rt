//! The bitmaps of each subject.
ghost use Rattle.std.specs.Prelude.{◌≡◌, ◌≤◌, ◌+◌, ◌^◌, ◌&&◌, IfOk, zip};
ghost use Rattle.std.specs.List.{list_any};
ghost use Rattle.policy_lawful.specs.PortRanges.{has_port};
ghost use Rattle.image_checks.specs.Agree.{BitmapsAgree, MsrAgrees, MsrsAgree, PortsAgree};
ghost use Rattle.image_checks.specs.Firsts.{Decides, IsFirstFailing};
ghost use Rattle.image_soundness.specs.Memory.{page_at};
ghost use Rattle.image_soundness.specs.Sound.{HasBitmaps};
ghost use Rattle.policy_lawful.specs.MsrGrants.{allows, has_msr, is_granted};
ghost use Rattle.policy_lawful.specs.Resolution.{source_of};

use crate::span_pages::page_at;
use expand_kernel::{Expanded, Grants};
use image_pack::{Image, Parts, SubjectPart};
use machine_layout::{msr_exits, port_exits};
use muen_num::limits::{HIGH_MSR_FIRST, LAST_PORT};
use muen_num::{AccessSize, NoMemory};
use policy_lawful::{MsrGrant, PortRange};
use std::alloc::Global;

/// How many MSRs each of the two ranges of an MSR bitmap has (Intel SDM volume 3, MSR-bitmap address).
const RANGE_SIZE: u32 = 0x2000;

// Whether one of the ranges has a port.
fn is_port_granted(ranges: &[PortRange], port: u16) -> bool
    ensures { result ≡ list_any (λ r. has_port r port) ranges.now }
{
    ranges
        .iter()
        .any(|range| range.start <= port && port <= range.end)
}

// Whether exactly those ports don't exit that these ranges have.
fn ports_agree(a: &[u8], b: &[u8], ranges: &[PortRange]) -> bool
    ensures { Decides (PortsAgree a.now b.now ranges.now) result }
{
    for number in 0..LAST_PORT + 1 {
        let port = number as u16;
        if port_exits(a, b, port, AccessSize::One) == is_port_granted(ranges, port) {
            return false;
        }
    }
    true
}

// Whether a grant has an MSR, and allows it.
fn allows(grant: &MsrGrant, index: u32, write: bool) -> bool
    ensures { result ≡ (has_msr grant.now index && allows grant.now write) }
{
    let allowed = if write { grant.write } else { grant.read };
    grant.start <= index && index <= grant.end && allowed
}

// Whether one of the grants has an MSR and allows it.
#[tactic(auto, unfolding(policy_types::specs::MsrGrants::is_granted))]
fn is_granted(msrs: &[MsrGrant], index: u32, write: bool) -> bool
    ensures { result ≡ is_granted msrs.now index write }
{
    msrs.iter().any(|grant| allows(grant, index, write))
}

// Whether an access of an MSR exits unless these grants have it.
fn msr_agrees(bitmap: &[u8], msrs: &[MsrGrant], index: u32, write: bool) -> bool
    ensures { Decides (MsrAgrees bitmap.now msrs.now index write) result }
{
    msr_exits(bitmap, index, write) != is_granted(msrs, index, write)
}

// Whether exactly those don't exit that these grants have, of so many MSRs from a first one on.
fn msrs_agree(bitmap: &[u8], msrs: &[MsrGrant], first: u32, count: u32) -> bool
    requires { first + count ≤ 2 ^ 32 }
    ensures { Decides (MsrsAgree bitmap.now msrs.now first count) result }
{
    for k in 0..count {
        if !msr_agrees(bitmap, msrs, first + k, false)
            || !msr_agrees(bitmap, msrs, first + k, true)
        {
            return false;
        }
    }
    true
}

// Whether the bitmaps of a subject agree with what is granted to it.
fn bitmaps_agree(
    alloc: Global,
    image: &Image,
    part: &SubjectPart,
    granted: &Grants,
) -> Result<bool, NoMemory>
    ensures { IfOk result (λ b. Decides (BitmapsAgree (page_at image.now part.now.iobm 0) (page_at image.now part.now.iobm 1) (page_at image.now part.now.msrbm 0) granted.now.ports granted.now.msrs) b) }
{
    let a = page_at(alloc, image, part.iobm, 0)?;
    let b = page_at(alloc, image, part.iobm, 1)?;
    let bitmap = page_at(alloc, image, part.msrbm, 0)?;
    let msrs = granted.msrs.items();
    if !ports_agree(&a, &b, granted.ports.items()) {
        return Ok(false);
    }
    if !msrs_agree(&bitmap, msrs, 0, RANGE_SIZE) {
        return Ok(false);
    }
    Ok(msrs_agree(&bitmap, msrs, HIGH_MSR_FIRST as u32, RANGE_SIZE))
}

/// The first subject, of those that both have, whose bitmaps let through other accesses of ports or
/// MSRs than the policy grants it.
///
/// # Errors
/// Memory is refused.
pub fn first_by_bitmaps(
    alloc: Global,
    expanded: &Expanded,
    image: &Parts,
) -> Result<Option<usize>, NoMemory>
    ensures { IfOk result (IsFirstFailing (λ e. HasBitmaps (source_of expanded.now.lawful) image.now e.0 e.1) (zip (source_of expanded.now.lawful).subjects image.now.subjects)) }
{
    let subjects = expanded.lawful().resolved().subjects();
    let grants = expanded.grants();
    let image = image.image();
    let parts = image.subjects.items();
    for index in 0..grants.len().min(parts.len()) {
        if !bitmaps_agree(alloc, image, &parts[index], &grants[index])? {
            return Ok(Some(index));
        }
    }
    Ok(None)
}
