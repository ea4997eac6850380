//! The tables of domains (Intel VT-d specification, second-level translation).
ghost use Rattle.std.specs.Prelude.{◌≡◌, ◌+◌, ◌*◌, ◌<◌, ◌≤◌, ◌^◌, ◌++◌, length, map, IfOk, OnOk};
ghost use Rattle.std.specs.List.{concat};
ghost use Rattle.dma_emit.specs.Emitted.{AreDomainTables, IsDomainsTables};
ghost use Rattle.dma_emit.specs.Layout.{page_count, tables_page};
ghost use Rattle.dma_emit.specs.Ready.{AreDomainWindows, IsReady};
ghost use Rattle.ept_emit.specs.Pages.{ept_pages, ranges_of};
ghost use Rattle.ept_emit.specs.Tables.{AreWritten};
ghost use Rattle.muen_num.specs.Range.{numbers_below};
ghost use Rattle.policy_lawful.specs.rights.Rights.TheVariants.{Rw};

use crate::domains::Domains;
use crate::layout::has_device;
use ept_emit::{Window, write_tables};
use muen_num::limits::PAGE;
use muen_num::{NoMemory, Seq};
use policy_lawful::Rights;
use std::alloc::{AllocError, Global};

// The tables of these windows, so many pages, of which the first is this one of physical memory.
fn tables_of(alloc: Global, windows: &[Window], page: u64, count: u64) -> Result<Seq<u8>, NoMemory>
    requires windows { AreDomainWindows windows.now }
    requires count { count ≡ ept_pages (ranges_of windows.now) }
    requires end { page + count ≤ 2 ^ 28 }
    ensures { IfOk result (AreWritten Rw windows.now page) }
{
    let mut tables = vec![in alloc; 0u8; (PAGE * count) as usize]?;
    write_tables(windows, Rights::Rw, PAGE * page, tables.as_mut_slice());
    Ok(Seq::of(tables))
}

// The tables of the domain of this number; none where no device stands in it.
fn domain_tables(
    alloc: Global,
    domains: &Domains,
    pages: &[u64],
    root: u64,
    number: usize,
) -> Result<Seq<u8>, NoMemory>
    requires ready { IsReady domains.now }
    requires root { root + page_count domains.now ≤ 2 ^ 28 }
    requires pages { pages.now ≡ map (tables_page domains.now) (numbers_below (length domains.now.windows + 1)) }
    requires there { number < length domains.now.windows }
    ensures { IfOk result (IsDomainsTables domains.now root number) }
{
    if !has_device(domains, number) {
        return Ok(Seq::new(alloc));
    }
    let page = pages[number];
    let windows = domains.windows.items()[number].items();
    tables_of(alloc, windows, root + page, pages[number + 1] - page)
}

/// The tables of each domain, none of one in which no device stands. The pages are those of their
/// highest tables, and the root table lies in the page `root` of physical memory.
pub(crate) fn all_tables(
    alloc: Global,
    domains: &Domains,
    pages: &[u64],
    root: u64,
) -> Result<Vec<Seq<u8>>, NoMemory>
    requires ready { IsReady domains.now }
    requires root { root + page_count domains.now ≤ 2 ^ 28 }
    requires pages { pages.now ≡ map (tables_page domains.now) (numbers_below (length domains.now.windows + 1)) }
    ensures { IfOk result (λ v. AreDomainTables domains.now root v.items) }
{
    let mut tables = Vec::new(alloc);
    for number in 0..domains.windows.len() {
        tables.push(domain_tables(alloc, domains, pages, root, number)?)?;
    }
    Ok(tables)
}

/// Appends these tables.
pub(crate) fn put_tables(out: &mut Vec<u8>, tables: &[Seq<u8>]) -> Result<(), AllocError>
    ensures { OnOk result (out.new.items ≡ out.old.items ++ concat tables.now) }
{
    for of_domain in tables {
        out.extend_from_slice(of_domain.items())?;
    }
    Ok(())
}
