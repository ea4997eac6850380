//! The EPT tables of a subject.
ghost use Rattle.std.specs.Prelude.{◌≡◌, ◌*◌, ◌<◌, IfOk, Some, length, slice_get};
ghost use Rattle.region_alloc.specs.Placed.{IsPlaced};
ghost use Rattle.subject_emit.specs.Mapped.{mapped_windows};
ghost use Rattle.ept_emit.specs.Pages.{ept_pages, ranges_of};
ghost use Rattle.muen_num.specs.declared.limits.TheConstants.{PAGE};
ghost use Rattle.subject_emit.specs.Ready.{IsReady};
ghost use Rattle.subject_emit.specs.Pages.{AreTablesOf, tables_at};

use crate::mapped::mapped_windows;
use ept_emit::emit;
use expand_kernel::{Grants, KernelRegion};
use muen_num::{NoMemory, Seq};
use region_alloc::Placed;
use std::alloc::Global;

/// The physical address at which the tables of the subject at an index lie.
#[tactic(auto, using(crate::proofs::TablesReady::addresses_many))]
pub fn tables_at(placed: &Placed, subject: usize) -> u64
    requires { subject < length placed.now.expanded.lawful.subjects }
    ensures { result ≡ tables_at placed.now subject }
{
    let first = placed.expanded().kernel_first(subject);
    placed.addresses()[KernelRegion::Tables.number(first)]
}

// The tables of the subject at an index, which is granted this and whose tables have so many bytes.
fn emitted(
    alloc: Global,
    placed: &Placed,
    subject: usize,
    granted: &Grants,
    bytes: u64,
) -> Result<Seq<u8>, NoMemory>
    requires ready { IsReady placed.now subject granted.now }
    requires bytes { bytes ≡ PAGE * ept_pages (ranges_of (mapped_windows placed.now granted.now)) }
    ensures { IfOk result (AreTablesOf (mapped_windows placed.now granted.now) (tables_at placed.now subject)) }
{
    let windows = mapped_windows(alloc, placed, granted.windows.items())?;
    let mut tables = vec![in alloc; 0u8; bytes as usize]?;
    emit(&windows, tables_at(placed, subject), tables.as_mut_slice());
    Ok(Seq::of(tables))
}

/// The EPT tables of the subject at an index, which is granted this: as many bytes as their region has.
///
/// Answers `NoMemory` where memory was refused.
pub(crate) fn tables(
    alloc: Global,
    placed: &Placed,
    subject: usize,
    granted: &Grants,
) -> Result<Seq<u8>, NoMemory>
    requires granted { slice_get placed.now.expanded.grants subject ≡ Some granted.now }
    ensures tables { IfOk result (AreTablesOf (mapped_windows placed.now granted.now) (tables_at placed.now subject)) }
    ensures placed { IsPlaced placed.now }
{
    let expanded = placed.expanded();
    let regions = expanded.regions();
    let first = expanded.kernel_first(subject);
    let region = &regions[KernelRegion::Tables.number(first)];
    emitted(alloc, placed, subject, granted, region.size)
}
