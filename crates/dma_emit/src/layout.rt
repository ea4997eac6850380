//! Which page of the file has which table. Pages are numbered from 0, the root table's.
ghost use Rattle.std.specs.Prelude.{◌≡◌, ◌+◌, ◌==◌, ◌<◌, ◌≤◌, length, map, IfOk};
ghost use Rattle.dma_emit.specs.Layout.{buses, buses_below, domain_pages, has_device, on_bus, tables_page};
ghost use Rattle.dma_emit.specs.Ready.{AreDomainWindows, IsReady};
ghost use Rattle.dma_emit.specs.declared.layout.TheConstants.{BUSES};
ghost use Rattle.ept_emit.specs.Pages.{ept_pages, ranges_of};
ghost use Rattle.muen_num.specs.Range.{numbers_below};

use crate::domains::Domains;
use ept_emit::{GuestRange, Window, pages};
use muen_num::NoMemory;
use std::alloc::{AllocError, Global};

/// How many entries a root table or a context table has.
pub(crate) const ENTRIES: u16 = 256;

/// How many buses there are: a root table has an entry for each.
pub(crate) const BUSES: u16 = ENTRIES;

/// How many devices and functions there are on a bus: a context table has an entry for each.
pub(crate) const DEVFNS: u16 = ENTRIES;

/// Whether a device of some domain is on this bus.
pub(crate) fn on_bus(domains: &Domains, bus: u16) -> bool
    ensures { result ≡ on_bus domains.now bus }
{
    domains
        .devices
        .items()
        .iter()
        .any(|device| u16::from(device.device.bus) == bus)
}

/// Whether some device stands in the domain of this number.
pub(crate) fn has_device(domains: &Domains, number: usize) -> bool
    ensures { result ≡ has_device domains.now number }
{
    domains
        .devices
        .items()
        .iter()
        .any(|device| device.domain == number)
}

// How many buses below a number have a context table.
fn count_below(domains: &Domains, end: u16) -> usize
    ensures { result ≡ length (buses_below domains.now end) }
{
    (0..end).filter(|bus| on_bus(domains, *bus)).count()
}

// How many buses have one.
fn bus_count(domains: &Domains) -> u64
    ensures value { result ≡ length (buses domains.now) }
    ensures few { result ≤ BUSES }
{
    count_below(domains, BUSES) as u64
}

// The addresses of windows.
fn ranges_of(alloc: Global, windows: &[Window]) -> Result<Vec<GuestRange>, AllocError>
    ensures { IfOk result (λ v. v.items ≡ ranges_of windows.now) }
{
    windows
        .iter()
        .map(|window| GuestRange {
            guest: window.guest,
            size: window.size,
        })
        .collect(alloc)
}

// How many pages the tables of these windows take.
fn table_pages(alloc: Global, windows: &[Window]) -> Result<u64, NoMemory>
    requires { AreDomainWindows windows.now }
    ensures { IfOk result (λ n. n ≡ ept_pages (ranges_of windows.now)) }
{
    let ranges = ranges_of(alloc, windows)?;
    Ok(pages(&ranges))
}

// How many pages the tables of the domain of this number take.
fn domain_pages(alloc: Global, domains: &Domains, number: usize) -> Result<u64, NoMemory>
    requires ready { IsReady domains.now }
    requires there { number < length domains.now.windows }
    ensures { IfOk result (λ n. n ≡ domain_pages domains.now number) }
{
    if !has_device(domains, number) {
        return Ok(0);
    }
    table_pages(alloc, domains.windows.items()[number].items())
}

/// The page of the highest table of each domain, and then the number of all pages.
pub(crate) fn tables_pages(alloc: Global, domains: &Domains) -> Result<Vec<u64>, NoMemory>
    requires { IsReady domains.now }
    ensures { IfOk result (λ v. v.items ≡ map (tables_page domains.now) (numbers_below (length domains.now.windows + 1))) }
{
    let mut next = 1 + bus_count(domains);
    let mut pages = Vec::new(alloc);
    pages.push(next)?;
    for number in 0..domains.windows.len() {
        next += domain_pages(alloc, domains, number)?;
        pages.push(next)?;
    }
    Ok(pages)
}
