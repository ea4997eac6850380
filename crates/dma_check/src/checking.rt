//! The verdict.
ghost use Rattle.std.specs.Prelude.{◌≡◌, ◌<◌, ◌^◌, ◌*◌, ℕ, None, IfOk, vec_len};
ghost use Rattle.dma_check.specs.Faults.{table_fault};
ghost use Rattle.dma_check.specs.Marked.{seen_in};
ghost use Rattle.dma_check.specs.Verdict.{OverImages, verdict};
ghost use Rattle.dma_check.specs.Views.{view_of};
ghost use Rattle.policy_lawful.specs.Resolution.{source_of};

use crate::again::{is_again, no_sources, note};
use crate::fault::{DmaFault, TableFault};
use crate::listing::listing_fault;
use crate::path::Way;
use crate::searching::fault_of;
use crate::spans::ImageSpans;
use crate::windows::{thing_addresses, windows_by};
use dma_tables::{DmaFile, DmaTables};
use image_pack::Parts;
use muen_num::NoMemory;
use muen_num::limits::PAGE;
use policy_lawful::Resolved;
use std::alloc::Global;

// How many sources of requests there are: by bus, device and function.
const SOURCES: u32 = 65536;

// No path to any of so many tables.
fn no_ways(alloc: Global, tables: usize) -> Result<Vec<Option<Way>>, NoMemory>
    ensures long { IfOk result (λ v. vec_len v ≡ tables) }
    ensures none { IfOk result (λ v. (root t : ℕ) → seen_in root v.items t ≡ None) }
{
    let ways = vec![in alloc; None; tables]?;
    Ok(ways)
}

// The first fault of a file's tables.
fn first_fault(
    alloc: Global,
    policy: &Resolved,
    spans: &ImageSpans,
    file: &DmaFile,
) -> Result<Option<TableFault>, NoMemory>
    ensures { OverImages spans.now (λ i. IfOk result (λ o. o ≡ table_fault (view_of (source_of policy.now) i file.now))) }
{
    let items = spans.items();
    let addresses = thing_addresses(alloc, items)?;
    let pages = file.pages.len() / PAGE as usize;
    let mut ways = no_ways(alloc, pages)?;
    let mut earlier = no_sources(alloc, pages)?;
    for source in 0..SOURCES {
        let windows = windows_by(alloc, policy, &addresses, source)?;
        let again = is_again(alloc, policy, &addresses, file, &earlier, &windows, source)?;
        if let Some(fault) = fault_of(file, items, &windows, &mut ways, source, again) {
            return Ok(Some(fault));
        }
        note(file, &mut earlier, source);
    }
    Ok(None)
}

/// What is the first that is wrong with tables, for a policy and an image with these spans, whoever made
/// them: with their list of devices, or else with where they lead each source of requests, source by source,
/// and for each its addresses ascending; `None` where nothing is.
///
/// # Errors
/// Memory is refused.
pub fn check_spans(
    alloc: Global,
    policy: &Resolved,
    spans: &ImageSpans,
    tables: &DmaTables,
) -> Result<Option<DmaFault>, NoMemory>
    ensures { OverImages spans.now (λ i. IfOk result (λ o. o ≡ verdict (source_of policy.now) i tables.now)) }
{
    let file = tables.file();
    if let Some(device) = listing_fault(policy, file) {
        return Ok(Some(DmaFault::Listing { device }));
    }
    match first_fault(alloc, policy, spans, file)? {
        None => Ok(None),
        Some(fault) => Ok(Some(DmaFault::Tables { fault })),
    }
}

/// The same, for a policy and an image.
///
/// # Errors
/// Memory is refused.
pub fn check(
    alloc: Global,
    policy: &Resolved,
    image: &Parts,
    tables: &DmaTables,
) -> Result<Option<DmaFault>, NoMemory>
    ensures { IfOk result (λ o. o ≡ verdict (source_of policy.now) image.now tables.now) }
{
    let spans = ImageSpans::of(alloc, image)?;
    check_spans(alloc, policy, &spans, tables)
}
