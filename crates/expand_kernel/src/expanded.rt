//! Lawful policies with all that follows from them but addresses.
ghost use Rattle.std.specs.Prelude.{◌≡◌, ◌≤◌, length, map, IfOk};
ghost use Rattle.expand_grants.specs.Grants.{AreGrants, AreRoutes};
ghost use Rattle.expand_kernel.specs.ByIndex.{kernel_first};
ghost use Rattle.expand_kernel.specs.Expansion.{HaveNames, IsExpanded};
ghost use Rattle.expand_kernel.specs.Regions.{regions_of};
ghost use Rattle.policy_lawful.specs.Lawful.{IsLawful};
ghost use Rattle.policy_lawful.specs.Resolution.{IsResolved, source_of};
ghost use Rattle.policy_lawful.specs.Things.{region_of_thing};

use crate::kernel::of_kernel;
use expand_grants::{Grants, Route, grants, routes};
use muen_num::limits::KERNEL_REGIONS;
use muen_num::{NoMemory, Seq};
use policy_lawful::thing::Region;
use policy_lawful::{Lawful, Thing};
use std::alloc::{AllocError, Global};
use std::marker::Model;

/// A lawful policy with its regions by number, what is granted to each subject, and where the
/// interrupts of devices go.
#[derive(Debug, Drop)]
pub struct Expanded {
    lawful: Lawful,
    regions: Seq<Region>,
    grants: Seq<Grants>,
    routes: Seq<Route>,
}

impl Model for Expanded {
    ghost use Rattle.expand_kernel.specs.Expansion.{Expansion, HaveNames, IsExpanded};

    ghost Value = { Expansion };

    ghost view = { λ p. record {
      lawful = p.lawful;
      regions = p.regions;
      grants = p.grants;
      routes = p.routes;
    } };

    ghost invariant = { λ p. IsExpanded (record {
      lawful = p.lawful;
      regions = p.regions;
      grants = p.grants;
      routes = p.routes;
    }) × HaveNames p.lawful.subjects };
}

impl Expanded {
    /// The policy.
    pub fn lawful(&self) -> &Lawful
        ensures { result.now ≡ self.now.lawful }
    {
        &self.lawful
    }

    /// The regions, by number: memory, channels, what each subject's component brings along, and the
    /// kernel's for each subject.
    pub fn regions(&self) -> &[Region]
        ensures value { result.now ≡ self.now.regions }
        ensures regions { result.now ≡ regions_of (source_of self.now.lawful) }
        ensures expanded { IsExpanded self.now }
    {
        self.regions.items()
    }

    /// The number of the first region that the kernel has for the subject at an index, of five: its
    /// state page, EPT tables, I/O bitmaps, MSR bitmap and MSR area. Those of all subjects are the last.
    pub fn kernel_first(&self, subject: usize) -> usize
        requires { subject ≤ length self.now.lawful.subjects }
        ensures { result ≡ kernel_first self.now.lawful subject }
    {
        let behind = self.lawful().resolved().subjects().len() - subject;
        self.regions().len() - KERNEL_REGIONS * behind
    }

    /// What is granted to each subject.
    pub fn grants(&self) -> &[Grants]
        ensures value { result.now ≡ self.now.grants }
        ensures grants { AreGrants self.now.lawful result.now }
        ensures expanded { IsExpanded self.now }
        ensures named { HaveNames self.now.lawful.subjects }
    {
        self.grants.items()
    }

    /// Where the interrupts of devices go.
    pub fn routes(&self) -> &[Route]
        ensures value { result.now ≡ self.now.routes }
        ensures routes { AreRoutes self.now.lawful result.now }
        ensures named { HaveNames self.now.lawful.subjects }
    {
        self.routes.items()
    }
}

// The region of a thing.
fn region_of(thing: &Thing) -> Region
    ensures { result ≡ region_of_thing thing.now }
{
    Region {
        tag: thing.tag,
        kind: thing.kind,
        size: thing.size,
        alignment: thing.alignment,
        fixed: thing.fixed,
    }
}

// The regions of things, in order.
fn regions_of(alloc: Global, things: &[Thing]) -> Result<Vec<Region>, AllocError>
    ensures { IfOk result (λ v. v.items ≡ map region_of_thing things.now) }
{
    things.iter().map(|thing| region_of(thing)).collect(alloc)
}

// The regions by number: those of the things that are placed, and then the kernel's.
fn regions_by_number(
    alloc: Global,
    lawful: &Lawful,
    grants: &[Grants],
) -> Result<Seq<Region>, NoMemory>
    requires { AreGrants lawful.now grants.now }
    ensures regions { IfOk result (λ regions. regions ≡ regions_of (source_of lawful.now)) }
    ensures resolved { IfOk result (λ _. IsResolved lawful.now) }
    ensures lawful { IfOk result (λ _. IsLawful (source_of lawful.now)) }
    ensures named { IfOk result (λ _. HaveNames lawful.now.subjects) }
{
    let policy = lawful.resolved();
    let subjects = policy.subjects();
    let mut regions = regions_of(alloc, policy.placed_things())?;
    let kernel = of_kernel(alloc, subjects, grants)?;
    regions.extend_from_slice(&kernel)?;
    Ok(Seq::of(regions))
}

/// All that follows from a lawful policy but addresses.
///
/// Answers `NoMemory` where memory was refused.
pub fn expand(alloc: Global, lawful: Lawful) -> Result<Expanded, NoMemory>
    ensures { IfOk result (λ p. p.lawful ≡ lawful) }
{
    let grants = grants(alloc, &lawful)?;
    let routes = routes(alloc, &lawful)?;
    let regions = regions_by_number(alloc, &lawful, grants.items())?;
    Ok(Expanded {
        lawful,
        regions,
        grants,
        routes,
    })
}
