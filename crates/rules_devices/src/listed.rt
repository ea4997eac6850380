//! Names that stand in domains of devices.
ghost use Rattle.std.specs.Prelude.{◌≡◌, ◌++◌, map, IfOk, OnOk};
ghost use Rattle.std.specs.List.{flat_map};
ghost use Rattle.policy_lawful.specs.Offences.{two};
ghost use Rattle.rules_devices.specs.Domains.{domain_devices, domain_regions, domain_itself, first_repeat};

use muen_num::{Name, NoMemory};
use policy_lawful::source::Domain;
use policy_lawful::{NameHash, NameSet, Named, Offence};
use std::alloc::{AllocError, Global};

/// A name in a domain.
#[derive(Clone, Copy)]
pub(crate) struct Listed {
    pub domain: Name,
    pub name: Name,
}

impl Named for Listed {
    ghost name = { λ x. x.name };

    fn name(&self) -> Name {
        self.name
    }
}

impl Listed {
    /// The domain and what it lists.
    pub(crate) fn offence(&self) -> Offence
        ensures { result ≡ two self.now.domain self.now.name }
    {
        Offence {
            first: self.domain,
            second: self.name,
        }
    }
}

// A domain under its own name.
fn itself(domain: &Domain) -> Listed
    ensures { result ≡ domain_itself domain.now }
{
    Listed {
        domain: domain.name,
        name: domain.name,
    }
}

/// The domains, each under its own name.
pub(crate) fn names_of(alloc: Global, domains: &[Domain]) -> Result<Vec<Listed>, AllocError>
    ensures { IfOk result (λ v. v.items ≡ map domain_itself domains.now) }
{
    domains.iter().map(itself).collect(alloc)
}

// Notes the devices of a domain.
fn push_devices(listed: &mut Vec<Listed>, domain: &Domain) -> Result<(), NoMemory>
    ensures { OnOk result (listed.new.items ≡ listed.old.items ++ domain_devices domain.now) }
{
    for name in domain.devices.items() {
        listed.push(Listed {
            domain: domain.name,
            name: *name,
        })?;
    }
    Ok(())
}

/// The devices of all domains.
#[tactic(auto, using(crate::proofs::Names::listed_more))]
pub(crate) fn devices_of(alloc: Global, domains: &[Domain]) -> Result<Vec<Listed>, NoMemory>
    ensures { IfOk result (λ v. v.items ≡ flat_map domain_devices domains.now) }
{
    let mut listed = Vec::new(alloc);
    for domain in domains {
        push_devices(&mut listed, domain)?;
    }
    Ok(listed)
}

// Notes the regions of a domain's windows.
fn push_regions(listed: &mut Vec<Listed>, domain: &Domain) -> Result<(), NoMemory>
    ensures { OnOk result (listed.new.items ≡ listed.old.items ++ domain_regions domain.now) }
{
    for window in domain.memory.items() {
        listed.push(Listed {
            domain: domain.name,
            name: window.region,
        })?;
    }
    Ok(())
}

/// The regions of the windows of all domains.
#[tactic(auto, using(crate::proofs::Names::listed_more))]
pub(crate) fn regions_of(alloc: Global, domains: &[Domain]) -> Result<Vec<Listed>, NoMemory>
    ensures { IfOk result (λ v. v.items ≡ flat_map domain_regions domains.now) }
{
    let mut listed = Vec::new(alloc);
    for domain in domains {
        push_regions(&mut listed, domain)?;
    }
    Ok(listed)
}

/// The first of these whose name stands before it.
#[tactic(auto, using(crate::proofs::Names::repeat_from_start))]
pub(crate) fn first_repeat(alloc: Global, listed: &[Listed]) -> Result<Option<Listed>, NoMemory>
    ensures { IfOk result (λ o. o ≡ first_repeat listed.now) }
{
    let mut names = NameSet::new(alloc, NameHash::behind(listed));
    for x in listed {
        if !names.add(x.name)? {
            return Ok(Some(*x));
        }
    }
    Ok(None)
}
