//! Rule 22: the windows of domains lie on regions, and are disjoint ranges of guest addresses
//! without a right to execute.
ghost use Rattle.std.specs.Prelude.{◌≡◌, None, map, option_map, IfOk};
ghost use Rattle.muen_num.specs.Search.{first_in};
ghost use Rattle.policy_lawful.specs.Domains.{offence_22};
ghost use Rattle.policy_lawful.specs.Offences.{two};
ghost use Rattle.policy_lawful.specs.Resolution.{source_of};
ghost use Rattle.policy_lawful.specs.Rules.{first_overlap};
ghost use Rattle.rules_devices.specs.Windows.{undeclared_in, unaligned_in, outside_in, executable_in, mapping_extent, overlap_in, domain_windows_offence};

use crate::declared::Declared;
use muen_num::limits::{GUEST_END, PAGE};
use muen_num::{Name, NoMemory, first};
use policy_lawful::source::{Domain, Mapping, Region};
use policy_lawful::{Extent, Offence};
use policy_views::Linked;
use rules_extents::first_overlap;
use std::alloc::{AllocError, Global};

// A domain and the region of one of its windows.
fn at_window(domain: Name, window: &Mapping) -> Offence
    ensures { result ≡ two domain window.now.region }
{
    Offence {
        first: domain,
        second: window.region,
    }
}

// The first window of a domain on no region.
fn undeclared_in(regions: &Declared<'_, Region>, domain: &Domain) -> Option<Offence>
    ensures { result ≡ undeclared_in regions.now.items.now domain.now }
{
    first(domain.memory.items(), |window| {
        at_window(domain.name, window).unless(regions.contains(&window.region))
    })
}

// The first at an address that isn't a page's.
fn unaligned_in(domain: &Domain) -> Option<Offence>
    ensures { result ≡ unaligned_in domain.now }
{
    first(domain.memory.items(), |window| {
        at_window(domain.name, window).unless(window.virtual_address % PAGE == 0)
    })
}

// The first that ends behind the guest addresses.
fn outside_in(regions: &Declared<'_, Region>, domain: &Domain) -> Option<Offence>
    ensures { result ≡ outside_in regions.now.items.now domain.now }
{
    first(domain.memory.items(), |window| {
        let end = u128::from(window.virtual_address) + u128::from(regions.size(&window.region));
        at_window(domain.name, window).unless(end <= u128::from(GUEST_END))
    })
}

// The first with a right to execute.
fn executable_in(domain: &Domain) -> Option<Offence>
    ensures { result ≡ executable_in domain.now }
{
    first(domain.memory.items(), |window| {
        at_window(domain.name, window).unless(!window.rights.may_execute())
    })
}

// A window as a range of the devices' addresses.
fn extent(regions: &Declared<'_, Region>, window: &Mapping) -> Extent
    ensures { result ≡ mapping_extent regions.now.items.now window.now }
{
    Extent {
        name: window.region,
        address: window.virtual_address,
        size: regions.size(&window.region),
    }
}

fn extents(
    alloc: Global,
    regions: &Declared<'_, Region>,
    windows: &[Mapping],
) -> Result<Vec<Extent>, AllocError>
    ensures { IfOk result (λ v. v.items ≡ map (mapping_extent regions.now.items.now) windows.now) }
{
    windows
        .iter()
        .map(|window| extent(regions, window))
        .collect(alloc)
}

// Of two windows the second one, and its domain.
fn second_of(domain: Name, overlap: Option<Offence>) -> Option<Offence>
    ensures { result ≡ option_map (λ o. two domain o.second) overlap }
{
    overlap.map(|overlap| Offence {
        first: domain,
        second: overlap.second,
    })
}

// The first two windows of a domain that share an address.
fn overlap(
    alloc: Global,
    regions: &Declared<'_, Region>,
    domain: &Domain,
) -> Result<Option<Offence>, NoMemory>
    ensures { IfOk result (λ o. o ≡ first_overlap (map (mapping_extent regions.now.items.now) domain.now.memory)) }
{
    let extents = extents(alloc, regions, domain.memory.items())?;
    first_overlap(alloc, &extents)
}

// The same, told by the domain and the later one.
fn overlap_in(
    alloc: Global,
    regions: &Declared<'_, Region>,
    domain: &Domain,
) -> Result<Option<Offence>, NoMemory>
    ensures { IfOk result (λ o. o ≡ overlap_in regions.now.items.now domain.now) }
{
    let overlap = overlap(alloc, regions, domain)?;
    Ok(second_of(domain.name, overlap))
}

// The first such windows of all domains.
fn overlap_of(
    alloc: Global,
    regions: &Declared<'_, Region>,
    domains: &[Domain],
) -> Result<Option<Offence>, NoMemory>
    ensures { IfOk result (λ o. o ≡ first_in (overlap_in regions.now.items.now) domains.now) }
{
    for domain in domains {
        if let Some(offence) = overlap_in(alloc, regions, domain)? {
            return Ok(Some(offence));
        }
    }
    Ok(None)
}

// The same of all domains: the first window at an address that isn't a page's.
fn unaligned_of(domains: &[Domain]) -> Option<Offence>
    ensures { result ≡ first_in unaligned_in domains.now }
{
    first(domains, |domain| unaligned_in(domain))
}

// The first that ends behind the guest addresses.
fn outside_of(regions: &Declared<'_, Region>, domains: &[Domain]) -> Option<Offence>
    ensures { result ≡ first_in (outside_in regions.now.items.now) domains.now }
{
    first(domains, |domain| outside_in(regions, domain))
}

// The first with a right to execute.
fn executable_of(domains: &[Domain]) -> Option<Offence>
    ensures { result ≡ first_in executable_in domains.now }
{
    first(domains, |domain| executable_in(domain))
}

// The first window of all domains on no region.
fn undeclared_of(regions: &Declared<'_, Region>, domains: &[Domain]) -> Option<Offence>
    ensures { result ≡ first_in (undeclared_in regions.now.items.now) domains.now }
{
    first(domains, |domain| undeclared_in(regions, domain))
}

// The conditions in turn.
fn of_windows(
    alloc: Global,
    regions: &Declared<'_, Region>,
    domains: &[Domain],
) -> Result<Option<Offence>, NoMemory>
    ensures { IfOk result (λ o. o ≡ domain_windows_offence regions.now.items.now domains.now) }
{
    if let Some(offence) = undeclared_of(regions, domains) {
        return Ok(Some(offence));
    }
    if let Some(offence) = unaligned_of(domains) {
        return Ok(Some(offence));
    }
    if let Some(offence) = outside_of(regions, domains) {
        return Ok(Some(offence));
    }
    if let Some(offence) = executable_of(domains) {
        return Ok(Some(offence));
    }
    overlap_of(alloc, regions, domains)
}

/// The first offence against rule 22, if any: a domain and a region, of the first window that isn't
/// on a declared region, else of the first at an address that isn't a page's, else of the first that
/// ends too high, else of the first with a right to execute, else of the first that overlaps one
/// before it in its domain.
///
/// Answers `NoMemory` where memory was refused.
#[tactic(auto, using(policy_lawful::proofs::UniqueNames::regions_unique, crate::proofs::WindowsByExtent::windows_by_index))]
pub fn domain_windows(alloc: Global, policy: &Linked) -> Result<Option<Offence>, NoMemory>
    ensures { IfOk result (λ o. o ≡ offence_22 (source_of policy.now)) }
{
    let regions = Declared::of(alloc, policy.memory())?;
    of_windows(alloc, &regions, policy.device_domains())
}
