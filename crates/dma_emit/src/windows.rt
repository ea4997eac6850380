//! The windows of a domain.
ghost use Rattle.std.specs.Prelude.{◌≡◌, IfOk, position};
ghost use Rattle.std.specs.List.{filter_map};
ghost use Rattle.std.specs.List.Sorted.{IsNonDecreasingBy, IsPermutation};
ghost use Rattle.std.specs.Str.{bytes_eq};
ghost use Rattle.dma_emit.specs.Domains.{mapped, windows_of};
ghost use Rattle.dma_emit.specs.Ready.{HaveDifferentGuests};

use ept_emit::{Leaf, Window};
use muen_num::{Name, NoMemory, Seq};
use policy_lawful::Caching;
use policy_lawful::source::{Domain, Mapping, Region};
use region_alloc::Placed;
use std::alloc::{AllocError, Global};

// The number of the region of this name.
fn region_number(memory: &[Region], name: &Name) -> Option<usize>
    ensures { result ≡ position (λ r. bytes_eq r.name name.now) memory.now }
{
    memory.iter().position(|region| region.name == *name)
}

// A window of a domain, where its region lies.
fn mapped(placed: &Placed, mapping: &Mapping) -> Option<Window>
    ensures { result ≡ mapped placed.now mapping.now }
{
    let memory = placed.expanded().lawful().resolved().memory();
    let number = region_number(memory, &mapping.region)?;
    Some(Window {
        guest: mapping.virtual_address,
        size: memory[number].size,
        address: placed.addresses()[number],
        rights: mapping.rights,
        caching: Caching::Uc,
        leaf: Leaf::Small,
    })
}

// The windows of a domain, as the policy has them.
fn in_turn(alloc: Global, placed: &Placed, domain: &Domain) -> Result<Vec<Window>, AllocError>
    ensures { IfOk result (λ v. v.items ≡ filter_map (mapped placed.now) domain.now.memory) }
{
    domain
        .memory
        .items()
        .iter()
        .filter_map(|mapping| mapped(placed, mapping))
        .collect(alloc)
}

// These windows, none at a lower address than one before it.
fn rising(windows: Vec<Window>) -> Result<Vec<Window>, NoMemory>
    ensures moved { IfOk result (λ v. IsPermutation windows.items v.items) }
    ensures rising { IfOk result (λ v. IsNonDecreasingBy (λ w. w.guest) v.items) }
{
    let mut rising = windows;
    rising.sort_by_key(|window| window.guest)?;
    Ok(rising)
}

/// The windows of a domain by ascending address, of which no two are at the same.
pub(crate) fn windows_of(
    alloc: Global,
    placed: &Placed,
    domain: &Domain,
) -> Result<Seq<Window>, NoMemory>
    requires { HaveDifferentGuests (filter_map (mapped placed.now) domain.now.memory) }
    ensures { IfOk result (λ windows. windows ≡ windows_of placed.now domain.now) }
{
    let windows = in_turn(alloc, placed, domain)?;
    Ok(Seq::of(rising(windows)?))
}
