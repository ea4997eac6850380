//! The domains of a placed policy.
ghost use Rattle.std.specs.Prelude.{◌≡◌, map, All, IfOk};
ghost use Rattle.std.specs.List.{filter_map};
ghost use Rattle.dma_emit.specs.Domains.{domains_of, mapped, windows_of};
ghost use Rattle.dma_emit.specs.Ready.{HaveDifferentGuests, IsReady};
ghost use Rattle.region_alloc.specs.Placed.{IsPlaced};

use crate::devices::{DomainDevice, domain_devices};
use crate::windows::windows_of;
use ept_emit::Window;
use muen_num::{NoMemory, Seq};
use policy_lawful::source::Domain;
use region_alloc::Placed;
use std::alloc::Global;

/// The domains of a policy: what stands in them, and where their windows lead.
#[derive(Debug, Drop)]
pub struct Domains {
    /// The devices that stand in a domain, in the order of the policy's devices.
    pub devices: Seq<DomainDevice>,
    /// Of each domain its windows by ascending address, as its tables map them.
    pub windows: Seq<Seq<Window>>,
}

// Of each domain its windows.
fn windows_of_each(
    alloc: Global,
    placed: &Placed,
    domains: &[Domain],
) -> Result<Seq<Seq<Window>>, NoMemory>
    requires { All (λ d. HaveDifferentGuests (filter_map (mapped placed.now) d.memory)) domains.now }
    ensures { IfOk result (λ windows. windows ≡ map (windows_of placed.now) domains.now) }
{
    let mut windows = Seq::new(alloc);
    for domain in domains {
        windows.push(windows_of(alloc, placed, domain)?)?;
    }
    Ok(windows)
}

/// The domains of a placed policy.
///
/// # Errors
/// Memory is refused.
pub fn domains_of(alloc: Global, placed: &Placed) -> Result<Domains, NoMemory>
    ensures domains { IfOk result (λ d. d ≡ domains_of placed.now) }
    ensures ready { IfOk result IsReady }
    ensures placed { IsPlaced placed.now }
{
    let policy = placed.expanded().lawful().resolved();
    Ok(Domains {
        devices: Seq::of(domain_devices(alloc, policy)?),
        windows: windows_of_each(alloc, placed, policy.device_domains())?,
    })
}
