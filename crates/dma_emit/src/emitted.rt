//! The tables of a placed policy.
ghost use Rattle.std.specs.Prelude.{◌≡◌, ◌*◌, ◌<◌, length, IfOk};
ghost use Rattle.dma_tables.specs.Form.{IsBytes};
ghost use Rattle.dma_emit.specs.Base.{IsBase};
ghost use Rattle.dma_emit.specs.Domains.{domains_of};
ghost use Rattle.dma_emit.specs.Emitted.{IsFileOf};
ghost use Rattle.dma_emit.specs.Layout.{page_count};
ghost use Rattle.dma_emit.specs.MadeFor.{IsMadeFor};
ghost use Rattle.dma_emit.specs.Reached.{LeadAsDeclared};
ghost use Rattle.dma_tables.specs.declared.file.TheConstants.{MOST_DMA_PAGES};
ghost use Rattle.muen_num.specs.declared.limits.TheConstants.{PAGE};
ghost use Rattle.policy_lawful.specs.Resolution.{source_of};

use crate::base::base_of;
use crate::device_list::listed;
use crate::domains::domains_of;
use crate::layout::tables_pages;
use crate::pages::all_pages;
use dma_tables::{DmaDevice, DmaFile, DmaTables, conditions};
use muen_num::limits::PAGE;
use muen_num::{NoMemory, Seq};
use region_alloc::Placed;
use std::alloc::Global;

// The file of these parts, whose pages are bytes, since their type says so.
fn file_from(base: u64, pages: Vec<u8>, devices: Seq<DmaDevice>) -> DmaFile
    ensures value { result ≡ record { base = base; pages = pages.items; devices = devices } }
    ensures bytes { IsBytes result.pages }
{
    DmaFile {
        base,
        pages: Seq::of(pages),
        devices,
    }
}

// The file of a placed policy's tables.
fn file_of(alloc: Global, placed: &Placed) -> Result<DmaFile, NoMemory>
    ensures { IfOk result (IsMadeFor placed.now) }
{
    let domains = domains_of(alloc, placed)?;
    let numbers = tables_pages(alloc, &domains)?;
    let count = numbers[domains.windows.len()];
    let base = base_of(alloc, placed, count)?;
    let pages = all_pages(alloc, &domains, &numbers, base / PAGE)?;
    Ok(file_from(base, pages, listed(alloc, &domains)?))
}

/// The tables by which the devices of a placed policy access memory (Intel VT-d, legacy mode): the root
/// table, a context table for each bus with a device that stands in a domain, and the tables of each domain
/// in which a device stands, in the lowest pages that no block of memory and no memory of a device has.
///
/// # Errors
/// Memory is refused.
pub fn emit(alloc: Global, placed: &Placed) -> Result<DmaTables, NoMemory>
    // **Each device reaches what the policy declares**, and nothing else.
    ensures walk { IfOk result (LeadAsDeclared placed.now) }
    // Which file it is,
    ensures file { IfOk result (IsFileOf (domains_of placed.now)) }
    // of how many pages,
    ensures many { IfOk result (λ t. length t.pages ≡ PAGE * page_count (domains_of placed.now)) }
    // fewer than a file may have,
    ensures few { IfOk result (λ t. length t.pages < PAGE * MOST_DMA_PAGES) }
    // and where.
    ensures base { IfOk result (λ t. IsBase (source_of placed.now.expanded.lawful) (length t.pages) t.base) }
{
    let file = file_of(alloc, placed)?;
    conditions();
    Ok(DmaTables::make(file))
}
