//! Rule 21: the devices of domains.
ghost use Rattle.std.specs.Prelude.{◌≡◌, None, map, codes, option_map, IfOk};
ghost use Rattle.std.specs.List.{flat_map};
ghost use Rattle.muen_num.specs.declared.limits.TheConstants.{MOST_DOMAINS};
ghost use Rattle.muen_num.specs.Search.{first_in, unless};
ghost use Rattle.policy_lawful.specs.Domains.{offence_21};
ghost use Rattle.policy_lawful.specs.Offences.{two};
ghost use Rattle.policy_lawful.specs.Resolution.{source_of};
ghost use Rattle.policy_lawful.specs.Rules.{at_most, is_declared, repeated};
ghost use Rattle.rules_devices.specs.Domains.{domain_devices, first_repeat, has_bdf, names_offence, listed_offence, domains_offence};

use crate::bus::bus_offence;
use crate::declared::Declared;
use crate::listed::{Listed, devices_of, first_repeat, names_of};
use muen_num::limits::MOST_DOMAINS;
use muen_num::{Name, NoMemory, first};
use policy_lawful::Offence;
use policy_lawful::source::{Device, Domain};
use policy_views::Linked;
use std::alloc::Global;

// The key of the domains.
#[tactic(auto, unfolding(muen_num::specs::Naming::is_name))]
fn domains_key() -> Name
    ensures { result ≡ codes "deviceDomains" }
{
    Name::read(b"deviceDomains").unwrap()
}

fn too_many(count: usize) -> Option<Offence>
    ensures { result ≡ at_most count MOST_DOMAINS (codes "deviceDomains") }
{
    Offence::alone(domains_key()).unless(count <= MOST_DOMAINS)
}

// The first of these names that stands before.
fn repeat_of(alloc: Global, listed: &[Listed]) -> Result<Option<Offence>, NoMemory>
    ensures { IfOk result (λ o. o ≡ option_map (λ x. two x.domain x.name) (first_repeat listed.now)) }
{
    match first_repeat(alloc, listed)? {
        None => Ok(None),
        Some(again) => Ok(Some(again.offence())),
    }
}

// The first domain whose name stands before.
#[tactic(auto, using(crate::proofs::DomainsByIndex::names_repeated))]
fn name_twice(alloc: Global, domains: &[Domain]) -> Result<Option<Offence>, NoMemory>
    ensures { IfOk result (λ o. o ≡ repeated (map (λ d. d.name) domains.now)) }
{
    let names = names_of(alloc, domains)?;
    repeat_of(alloc, &names)
}

// Too many domains, or two of the same name.
fn of_names(alloc: Global, domains: &[Domain]) -> Result<Option<Offence>, NoMemory>
    ensures { IfOk result (λ o. o ≡ names_offence domains.now) }
{
    if let Some(offence) = too_many(domains.len()) {
        return Ok(Some(offence));
    }
    name_twice(alloc, domains)
}

// The first name of no device.
fn undeclared(devices: &Declared<'_, Device>, listed: &[Listed]) -> Option<Offence>
    ensures { result ≡ first_in (λ x. unless (is_declared (map (λ d. d.name) devices.now.items.now) x.name) (two x.domain x.name)) listed.now }
{
    first(listed, |x| x.offence().unless(devices.contains(&x.name)))
}

// The first name of a device that has no bus, device and function number.
fn nowhere(devices: &Declared<'_, Device>, listed: &[Listed]) -> Option<Offence>
    ensures { result ≡ first_in (λ x. unless (has_bdf devices.now.items.now x.name) (two x.domain x.name)) listed.now }
{
    first(listed, |x| x.offence().unless(devices.has_bdf(&x.name)))
}

// A name of no device, a device that stands twice, or one that has no bus, device and function
// number.
fn of_listed(
    alloc: Global,
    devices: &Declared<'_, Device>,
    listed: &[Listed],
) -> Result<Option<Offence>, NoMemory>
    ensures { IfOk result (λ o. o ≡ listed_offence devices.now.items.now listed.now) }
{
    if let Some(offence) = undeclared(devices, listed) {
        return Ok(Some(offence));
    }
    if let Some(offence) = repeat_of(alloc, listed)? {
        return Ok(Some(offence));
    }
    Ok(nowhere(devices, listed))
}

// The same of the devices that these domains list.
fn of_devices(
    alloc: Global,
    devices: &[Device],
    domains: &[Domain],
) -> Result<Option<Offence>, NoMemory>
    requires { repeated (map (λ d. d.name) devices.now) ≡ None }
    ensures { IfOk result (λ o. o ≡ listed_offence devices.now (flat_map domain_devices domains.now)) }
{
    let devices = Declared::of(alloc, devices)?;
    let listed = devices_of(alloc, domains)?;
    of_listed(alloc, &devices, &listed)
}

// The conditions in turn.
fn of_domains(
    alloc: Global,
    devices: &[Device],
    domains: &[Domain],
) -> Result<Option<Offence>, NoMemory>
    requires { repeated (map (λ d. d.name) devices.now) ≡ None }
    ensures { IfOk result (λ o. o ≡ domains_offence devices.now domains.now) }
{
    if let Some(offence) = of_names(alloc, domains)? {
        return Ok(Some(offence));
    }
    if let Some(offence) = of_devices(alloc, devices, domains)? {
        return Ok(Some(offence));
    }
    bus_offence(alloc, devices)
}

// The devices of a resolved policy, no two of which have the same name.
#[tactic(auto, using(policy_lawful::proofs::UniqueNames::devices_unique))]
fn unique_devices(policy: &Linked) -> &[Device]
    ensures value { result.now ≡ policy.now.devices }
    ensures unique { repeated (map (λ d. d.name) result.now) ≡ None }
{
    policy.devices()
}

/// The first offence against rule 21, if any: too many domains; a domain of a name that stands
/// before; in a domain, a device that isn't declared, else one that stands in a domain before, else
/// one that has no bus, device and function number; a device with a device or function number that
/// there isn't; two devices with the same three numbers.
///
/// Answers `NoMemory` where memory was refused.
#[tactic(auto, using(crate::proofs::DomainsByIndex::domains_by_index))]
pub fn domain_devices(alloc: Global, policy: &Linked) -> Result<Option<Offence>, NoMemory>
    ensures { IfOk result (λ o. o ≡ offence_21 (source_of policy.now)) }
{
    of_domains(alloc, unique_devices(policy), policy.device_domains())
}
