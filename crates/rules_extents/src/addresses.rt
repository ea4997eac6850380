//! Rule 4: addresses and sizes.
ghost use Rattle.std.specs.Prelude.{◌≡◌, ◌+◌, true};
ghost use Rattle.muen_num.specs.Search.{first_in, unless};
ghost use Rattle.policy_lawful.specs.Offences.{alone};
ghost use Rattle.policy_lawful.specs.Rules.{is_page_size, is_physical, is_guest, is_alignment, is_fixed, is_laid, offence_4};
ghost use Rattle.muen_num.specs.Numbers.{is_page_aligned};
ghost use Rattle.policy_lawful.specs.Resolution.{IsResolved, source_of};
ghost use Rattle.rules_extents.specs.Windows.{addresses_offence, component_channel_offence, component_ranges, device_memory_offence, elements_offence, provided_offence, range_offence, required_offence};

use crate::windows::outside;
use muen_num::limits::{GUEST_END, LARGE_PAGE, PAGE, PHYSICAL_END};
use muen_num::{Name, first};
use policy_lawful::Offence;
use policy_lawful::source::{
    Block, Channel, Component, ComponentChannel, Device, Provided, Region, Required,
};
use policy_views::Linked;

fn is_page_aligned(n: u64) -> bool
    ensures { result ≡ is_page_aligned n }
{
    n % PAGE == 0
}

fn is_page_size(n: u64) -> bool
    ensures { result ≡ is_page_size n }
{
    is_page_aligned(n) && n > 0
}

// Whether this is a range of physical memory.
fn is_physical(address: u64, size: u64) -> bool
    ensures { result ≡ is_physical address size }
{
    is_page_aligned(address)
        && is_page_size(size)
        && u128::from(address) + u128::from(size) <= u128::from(PHYSICAL_END)
}

/// Whether this is a range of guest addresses.
pub(crate) fn is_guest(address: u64, size: u64) -> bool
    ensures { result ≡ is_guest address size }
{
    is_page_aligned(address)
        && is_page_size(size)
        && u128::from(address) + u128::from(size) <= u128::from(GUEST_END)
}

fn is_alignment(n: u64) -> bool
    ensures { result ≡ is_alignment n }
{
    n == PAGE || n == LARGE_PAGE
}

// Whether a region is where it has to be, if it has to be anywhere. Its alignment is one of the two.
fn is_fixed(region: &Region) -> bool
    requires { is_alignment region.now.alignment ≡ true }
    ensures { result ≡ is_fixed region.now region.now.physical_address }
{
    match region.physical_address {
        None => true,
        Some(address) => is_physical(address, region.size) && address % region.alignment == 0,
    }
}

fn is_laid(region: &Region) -> bool
    ensures { result ≡ is_laid region.now }
{
    is_page_size(region.size) && is_alignment(region.alignment) && is_fixed(region)
}

// The first block that isn't a range of physical memory.
fn blocks(blocks: &[Block]) -> Option<Offence>
    ensures { result ≡ first_in (λ b. unless (is_physical b.physical_address b.size) (alone b.name)) blocks.now }
{
    first(blocks, |block| {
        Offence::alone(block.name).unless(is_physical(block.physical_address, block.size))
    })
}

// The first memory of a device that isn't one.
fn device(device: &Device) -> Option<Offence>
    ensures { result ≡ device_memory_offence device.now }
{
    first(device.memory.items(), |memory| {
        Offence {
            first: device.name,
            second: memory.name,
        }
        .unless(is_physical(memory.physical_address, memory.size))
    })
}

fn devices(devices: &[Device]) -> Option<Offence>
    ensures { result ≡ first_in device_memory_offence devices.now }
{
    first(devices, |each| device(each))
}

// The first region whose size, alignment or address isn't one.
fn regions(regions: &[Region]) -> Option<Offence>
    ensures { result ≡ first_in (λ r. unless (is_laid r) (alone r.name)) regions.now }
{
    first(
        regions,
        |region| Offence::alone(region.name).unless(is_laid(region)),
    )
}

// The first channel whose size isn't one.
fn channels(channels: &[Channel]) -> Option<Offence>
    ensures { result ≡ first_in (λ c. unless (is_page_size c.size) (alone c.name)) channels.now }
{
    first(
        channels,
        |channel| Offence::alone(channel.name).unless(is_page_size(channel.size)),
    )
}

// What a component has for a logical name, where it isn't a range of guest addresses.
fn range(by: &Name, logical: Name, address: u64, size: u64) -> Option<Offence>
    ensures { result ≡ range_offence by.now logical address size }
{
    Offence {
        first: *by,
        second: logical,
    }
    .unless(is_guest(address, size))
}

fn provided(by: &Name, provides: &[Provided]) -> Option<Offence>
    ensures { result ≡ first_in (provided_offence by.now) provides.now }
{
    first(
        provides,
        |x| range(by, x.logical, x.virtual_address, x.size),
    )
}

fn required(by: &Name, memory: &[Required]) -> Option<Offence>
    ensures { result ≡ first_in (required_offence by.now) memory.now }
{
    first(memory, |x| range(by, x.logical, x.virtual_address, x.size))
}

fn component_channels(by: &Name, channels: &[ComponentChannel]) -> Option<Offence>
    ensures { result ≡ first_in (component_channel_offence by.now) channels.now }
{
    first(
        channels,
        |x| range(by, x.logical, x.virtual_address, x.size),
    )
}

// The first range of a component that isn't one of guest addresses.
fn component(component: &Component) -> Option<Offence>
    ensures { result ≡ component_ranges component.now }
{
    provided(&component.name, component.provides.items())
        .or_else(|| required(&component.name, component.memory.items()))
        .or_else(|| component_channels(&component.name, component.channels.items()))
}

fn components(components: &[Component]) -> Option<Offence>
    ensures { result ≡ first_in component_ranges components.now }
{
    first(components, |each| component(each))
}

// The first element that offends, windows aside.
fn of_elements(policy: &Linked) -> Option<Offence>
    ensures value { result ≡ elements_offence policy.now }
    ensures resolved { IsResolved policy.now }
{
    let memory = policy.memory();
    blocks(policy.memory_blocks())
        .or_else(|| devices(policy.devices()))
        .or_else(|| regions(memory))
        .or_else(|| channels(policy.channels()))
        .or_else(|| components(policy.components()))
}

// The first element or window that offends.
#[tactic(auto, using(crate::proofs::Parted::components_kept))]
fn of_all(policy: &Linked) -> Option<Offence>
    ensures value { result ≡ addresses_offence policy.now }
    ensures resolved { IsResolved policy.now }
{
    match of_elements(policy) {
        Some(offence) => Some(offence),
        None => outside(policy),
    }
}

/// Rule 4: the first address or size that isn't one.
#[tactic(auto, using(crate::proofs::RangesByIndex::addresses_by_index))]
pub fn addresses(policy: &Linked) -> Option<Offence>
    ensures { result ≡ offence_4 (source_of policy.now) }
{
    of_all(policy)
}
