//! The windows of a source at the addresses of an image.
ghost use Rattle.std.specs.Prelude.{◌≡◌, ◌++◌, ◌<◌, ◌^◌, All, IfOk, IfSome, OnOk, length, option_map, option_to_list, position, slice_index_or};
ghost use Rattle.std.specs.List.{filter_map, find};
ghost use Rattle.std.specs.Str.{bytes_eq};
ghost use Rattle.dma_check.specs.Numbered.{address_of_number, domain_by, numbered_window, thing_addresses, window_at_number, windows_by};
ghost use Rattle.dma_check.specs.Held.{IsLow};
ghost use Rattle.image_soundness.specs.Sound.{is_kernel};
ghost use Rattle.policy_lawful.specs.Resolution.{source_of};
ghost use Rattle.policy_lawful.specs.source.Region.{Region};

use crate::held::DmaWindow;
use crate::listing::{device_of, domain_of};
use image_pack::{SpanKind, SpanPart, span_numbered};
use muen_num::{Name, NoMemory};
use policy_lawful::Resolved;
use policy_lawful::source::{Domain, Mapping, Region};
use std::alloc::{AllocError, Global};

fn is_kernel(kind: SpanKind) -> bool
    ensures { result ≡ is_kernel kind }
{
    matches!(kind, SpanKind::Kernel)
}

// The address of the span of this number, where there is one that isn't the kernel's.
fn address_of_number(spans: &[SpanPart], number: usize) -> Option<u64>
    ensures { result ≡ address_of_number spans.now number }
{
    let span = span_numbered(spans, number)?;
    if is_kernel(span.kind) {
        return None;
    }
    Some(span.address)
}

// Appends an address, where there is one.
fn push_some(addresses: &mut Vec<u64>, address: Option<u64>) -> Result<(), AllocError>
    ensures { OnOk result (addresses.new.items ≡ addresses.old.items ++ option_to_list address) }
{
    if let Some(place) = address {
        addresses.push(place)?;
    }
    Ok(())
}

/// The addresses of the spans that aren't the kernel's, in the order of the spans' numbers.
///
/// # Errors
/// Memory is refused.
#[tactic(auto, unfolding(crate::specs::Numbered::thing_addresses))]
pub(crate) fn thing_addresses(alloc: Global, spans: &[SpanPart]) -> Result<Vec<u64>, NoMemory>
    ensures { IfOk result (λ v. v.items ≡ thing_addresses spans.now) }
{
    let mut addresses = Vec::new(alloc);
    for number in 0..spans.len() {
        push_some(&mut addresses, address_of_number(spans, number))?;
    }
    Ok(addresses)
}

fn address_at(addresses: &[u64], number: usize) -> u64
    ensures { result ≡ slice_index_or addresses.now number 0 }
{
    match addresses.get(number) {
        None => 0,
        Some(address) => *address,
    }
}

// The number of the region of this name.
fn number_of(regions: &[Region], name: &Name) -> Option<usize>
    ensures { result ≡ position (λ (r : Region). bytes_eq r.name name.now) regions.now }
{
    regions.iter().position(|region| region.name == *name)
}

// A window on the region of a number, which has its address.
fn window_at(
    regions: &[Region],
    addresses: &[u64],
    mapping: &Mapping,
    number: usize,
) -> Option<DmaWindow>
    ensures { result ≡ window_at_number regions.now addresses.now mapping.now number }
{
    match regions.get(number) {
        None => None,
        Some(region) => Some(DmaWindow {
            guest: mapping.virtual_address,
            size: region.size,
            address: address_at(addresses, number),
            rights: mapping.rights,
        }),
    }
}

// A window on the region that a mapping names, where the thing of its number has its address.
fn window_on(policy: &Resolved, addresses: &[u64], mapping: &Mapping) -> Option<DmaWindow>
    ensures { result ≡ numbered_window policy.now.memory addresses.now mapping.now }
{
    match number_of(policy.memory(), &mapping.region) {
        None => None,
        Some(number) => window_at(policy.memory(), addresses, mapping, number),
    }
}

// The windows of a domain.
fn windows_on(
    alloc: Global,
    policy: &Resolved,
    addresses: &[u64],
    domain: &Domain,
) -> Result<Vec<DmaWindow>, AllocError>
    ensures { IfOk result (λ v. v.items ≡ filter_map (numbered_window policy.now.memory addresses.now) domain.now.memory) }
{
    domain
        .memory
        .items()
        .iter()
        .filter_map(|mapping| window_on(policy, addresses, mapping))
        .collect(alloc)
}

// The domain in which the policy's device that is a source stands.
fn domain_by(policy: &Resolved, source: u32) -> Option<&Domain>
    requires { source < 65536 }
    ensures { option_map (λ d. d.now) result ≡ domain_by (source_of policy.now) source }
{
    match device_of(policy, source) {
        None => None,
        Some(device) => domain_of(policy, &device.name),
    }
}

/// The windows of the domain in which the policy's device that is a source stands; of any other source
/// none.
///
/// # Errors
/// Memory is refused.
#[tactic(auto, unfolding(policy_lawful::specs::Resolution::source_of))]
pub(crate) fn windows_by(
    alloc: Global,
    policy: &Resolved,
    addresses: &[u64],
    source: u32,
) -> Result<Vec<DmaWindow>, NoMemory>
    requires { source < 65536 }
    ensures { IfOk result (λ v. v.items ≡ windows_by (source_of policy.now) addresses.now source) }
{
    match domain_by(policy, source) {
        None => Ok(Vec::new(alloc)),
        Some(domain) => {
            let windows = windows_on(alloc, policy, addresses, domain)?;
            Ok(windows)
        }
    }
}
