//! Root and context tables (Intel VT-d specification, legacy mode).
ghost use Rattle.std.specs.Prelude.{◌≡◌, ◌+◌, ◌<◌, ◌≤◌, ◌++◌, ◌^◌, length, map, OnOk, option_map};
ghost use Rattle.std.specs.List.{flat_map};
ghost use Rattle.dma_emit.specs.Entries.{context_entry, context_of, device_on, wide_entry_bytes, refers_to, root_entry, table_bytes};
ghost use Rattle.dma_emit.specs.Layout.{buses, context_page, on_bus, page_count, tables_page};
ghost use Rattle.dma_emit.specs.Ready.{IsReady};
ghost use Rattle.muen_num.specs.Range.{numbers_below};

use crate::devices::DomainDevice;
use crate::domains::Domains;
use crate::layout::{BUSES, DEVFNS, on_bus};
use muen_num::limits::PAGE;
use std::alloc::AllocError;

/// An entry of 16 bytes.
#[derive(Clone, Copy)]
pub(crate) struct WideEntry {
    /// Bits 63:0.
    pub low: u64,
    /// Bits 127:64.
    pub high: u64,
}

/// An entry that isn't present.
const ABSENT: WideEntry = WideEntry { low: 0, high: 0 };

/// Bit 0, which says that an entry is present.
const PRESENT: u64 = 1;

/// Four levels of tables, as bits 66:64 of a context entry have it.
const FOUR_LEVELS: u64 = 2;

/// What the identifier of a domain is multiplied by, so that it stands in bits 87:72.
const DOMAIN_UNIT: u64 = 1 << 8;

// Appends an entry.
#[tactic(auto, using(crate::proofs::Words::entry_appended))]
fn put_entry(out: &mut Vec<u8>, entry: WideEntry) -> Result<(), AllocError>
    ensures { OnOk result (out.new.items ≡ out.old.items ++ wide_entry_bytes entry) }
{
    out.extend_from_slice(&entry.low.to_le_bytes())?;
    out.extend_from_slice(&entry.high.to_le_bytes())?;
    Ok(())
}

// The low word of an entry that is present and refers to the table in this page.
fn refers_to(page: u64) -> u64
    requires { page ≤ 2 ^ 28 }
    ensures { result ≡ refers_to page }
{
    PAGE * page + PRESENT
}

// The root entry of a bus, whose context table would be in this page.
fn root_entry(domains: &Domains, root: u64, bus: u16, next: u64) -> WideEntry
    requires next { next ≡ root + context_page domains.now bus }
    requires small { next ≤ 2 ^ 28 }
    ensures { result ≡ root_entry domains.now root bus }
{
    if on_bus(domains, bus) {
        WideEntry {
            low: refers_to(next),
            high: 0,
        }
    } else {
        ABSENT
    }
}

/// Appends the root table, which lies in the page `root` of physical memory.
pub(crate) fn put_root(out: &mut Vec<u8>, domains: &Domains, root: u64) -> Result<(), AllocError>
    requires { root + page_count domains.now ≤ 2 ^ 28 }
    ensures { OnOk result (out.new.items ≡ out.old.items ++ table_bytes (root_entry domains.now root)) }
{
    let mut next = root + 1;
    for bus in 0..BUSES {
        put_entry(out, root_entry(domains, root, bus, next))?;
        if on_bus(domains, bus) {
            next += 1;
        }
    }
    Ok(())
}

// The device of a bus and devfn.
fn device_on(domains: &Domains, bus: u16, devfn: u16) -> Option<&DomainDevice>
    ensures { option_map (λ v. v.now) result ≡ device_on domains.now bus devfn }
{
    domains.devices.items().iter().find(|device| {
        u16::from(device.device.bus) == bus && u16::from(device.device.devfn) == devfn
    })
}

// The context entry of a device, by the pages of the domains' highest tables.
fn context_of(domains: &Domains, pages: &[u64], root: u64, device: &DomainDevice) -> WideEntry
    requires ready { IsReady domains.now }
    requires root { root + page_count domains.now ≤ 2 ^ 28 }
    requires pages { pages.now ≡ map (tables_page domains.now) (numbers_below (length domains.now.windows + 1)) }
    requires there { device.now.domain < length domains.now.windows }
    ensures { result ≡ context_of domains.now root device.now }
{
    WideEntry {
        low: refers_to(root + pages[device.domain]),
        high: DOMAIN_UNIT * (device.domain as u64 + 1) + FOUR_LEVELS,
    }
}

// The context entry of a bus and devfn.
fn context_entry(domains: &Domains, pages: &[u64], root: u64, bus: u16, devfn: u16) -> WideEntry
    requires ready { IsReady domains.now }
    requires root { root + page_count domains.now ≤ 2 ^ 28 }
    requires pages { pages.now ≡ map (tables_page domains.now) (numbers_below (length domains.now.windows + 1)) }
    ensures { result ≡ context_entry domains.now root bus devfn }
{
    match device_on(domains, bus, devfn) {
        None => ABSENT,
        Some(device) => context_of(domains, pages, root, device),
    }
}

// Appends the context table of a bus.
fn put_context(
    out: &mut Vec<u8>,
    domains: &Domains,
    pages: &[u64],
    root: u64,
    bus: u16,
) -> Result<(), AllocError>
    requires ready { IsReady domains.now }
    requires root { root + page_count domains.now ≤ 2 ^ 28 }
    requires pages { pages.now ≡ map (tables_page domains.now) (numbers_below (length domains.now.windows + 1)) }
    ensures { OnOk result (out.new.items ≡ out.old.items ++ table_bytes (context_entry domains.now root bus)) }
{
    for devfn in 0..DEVFNS {
        put_entry(out, context_entry(domains, pages, root, bus, devfn))?;
    }
    Ok(())
}

/// Appends the context tables, by ascending bus. The pages are those of the domains' highest tables.
pub(crate) fn put_contexts(
    out: &mut Vec<u8>,
    domains: &Domains,
    pages: &[u64],
    root: u64,
) -> Result<(), AllocError>
    requires ready { IsReady domains.now }
    requires root { root + page_count domains.now ≤ 2 ^ 28 }
    requires pages { pages.now ≡ map (tables_page domains.now) (numbers_below (length domains.now.windows + 1)) }
    ensures { OnOk result (out.new.items ≡ out.old.items ++ flat_map (λ bus. table_bytes (context_entry domains.now root bus)) (buses domains.now)) }
{
    for bus in 0..BUSES {
        if on_bus(domains, bus) {
            put_context(out, domains, pages, root, bus)?;
        }
    }
    Ok(())
}
