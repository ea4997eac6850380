//! What the kernel keeps for a subject.
ghost use Rattle.std.specs.Prelude.{◌≡◌, Some, IfOk, slice_get};
ghost use Rattle.subject_emit.specs.Pages.{ArePages};

use crate::bitmaps::{first_state, msr_area, msr_bitmap, port_bitmaps};
use crate::tables::tables;
use expand_kernel::Grants;
use muen_num::{NoMemory, Seq};
use policy_lawful::resolved::Subject;
use region_alloc::Placed;
use std::alloc::Global;

/// The pages that the kernel keeps for a subject, in the order of its regions.
#[derive(Debug, Drop)]
pub struct SubjectPages {
    /// Its state page, 4,096 bytes (this project's own machine).
    pub state: Seq<u8>,
    /// Its EPT tables, 4,096 bytes each, the PML4 table first (Intel SDM volume 3, EPT).
    pub tables: Seq<u8>,
    /// Its I/O bitmaps A and B, 4,096 bytes each (Intel SDM volume 3, I/O-bitmap addresses).
    pub ports: Seq<u8>,
    /// Its MSR bitmap, 4,096 bytes (Intel SDM volume 3, MSR-bitmap address).
    pub msrs: Seq<u8>,
    /// Its MSR area, 4,096 bytes (Intel SDM volume 3, format of an MSR entry).
    pub area: Seq<u8>,
}

/// The pages that the kernel keeps for the subject at an index, which is granted this: the state with
/// which it begins, tables of its windows at the addresses of what they show, bitmaps of the ports and
/// MSRs that are granted to it, and the area of these MSRs.
///
/// Answers `NoMemory` where memory was refused.
pub fn pages(
    alloc: Global,
    placed: &Placed,
    index: usize,
    subject: &Subject,
    granted: &Grants,
) -> Result<SubjectPages, NoMemory>
    requires subject { slice_get placed.now.expanded.lawful.subjects index ≡ Some subject.now }
    requires granted { slice_get placed.now.expanded.grants index ≡ Some granted.now }
    ensures { IfOk result (ArePages placed.now index subject.now granted.now) }
{
    Ok(SubjectPages {
        state: first_state(alloc, subject.entry)?,
        tables: tables(alloc, placed, index, granted)?,
        ports: port_bitmaps(alloc, granted.ports.items())?,
        msrs: msr_bitmap(alloc, granted.msrs.items())?,
        area: msr_area(alloc, granted.msrs.items())?,
    })
}
