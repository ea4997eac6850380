//! The regions that the kernel has for each subject.
ghost use Rattle.std.specs.Prelude.{◌≡◌, ◌≤◌, ◌+◌, ◌^◌, length, map, true, IfOk};
ghost use Rattle.std.specs.List.{All};
ghost use Rattle.ept_emit.specs.Pages.{ept_pages};
ghost use Rattle.expand_kernel.specs.ByIndex.{CanMap, kernel_for_each, granted_range, granted_ranges};
ghost use Rattle.expand_kernel.specs.Expansion.{HaveNames};
ghost use Rattle.expand_kernel.specs.Regions.{anywhere, kernel_order, kernel_region};
ghost use Rattle.muen_num.specs.Naming.{is_name};
ghost use Rattle.muen_num.specs.declared.limits.TheConstants.{KERNEL_REGIONS};
ghost use Rattle.policy_lawful.specs.declared.thing.RegionKind.TheVariants.{Kernel};

use ept_emit::{GuestRange, pages};
use expand_grants::{GrantedWindow, Grants};
use muen_num::limits::{KERNEL_REGIONS, PAGE};
use muen_num::{Name, NoMemory, Tag, TagPart};
use policy_lawful::resolved::Subject;
use policy_lawful::thing::{Region, RegionKind};
use std::alloc::{AllocError, Global};

/// What the kernel has a region of memory for, of each subject.
#[derive(Clone, Copy, Debug)]
pub enum KernelRegion {
    /// Its state page.
    State,
    /// Its EPT tables.
    Tables,
    /// I/O bitmaps A and B.
    IoBitmaps,
    /// Its MSR bitmap.
    MsrBitmap,
    /// Its MSR area.
    MsrArea,
}

impl KernelRegion {
    ghost use Rattle.expand_kernel.specs.Regions.{kernel_number};

    /// All of a subject, in the order of their numbers.
    pub const ALL: [KernelRegion; KERNEL_REGIONS] = [
        KernelRegion::State,
        KernelRegion::Tables,
        KernelRegion::IoBitmaps,
        KernelRegion::MsrBitmap,
        KernelRegion::MsrArea,
    ];

    /// The number of the region, where that of the first of its subject's is this.
    pub fn number(self, first: usize) -> usize
        requires { first + KERNEL_REGIONS ≤ 2 ^ 64 }
        ensures { result ≡ kernel_number self first }
    {
        first + self as usize
    }
}

// The guest addresses of a window.
fn guest_range(window: &GrantedWindow) -> GuestRange
    ensures { result ≡ granted_range window.now }
{
    GuestRange {
        guest: window.guest,
        size: window.size,
    }
}

// The guest addresses of windows, in their order: how many pages tables take follows from these.
fn guest_ranges(alloc: Global, windows: &[GrantedWindow]) -> Result<Vec<GuestRange>, AllocError>
    ensures { IfOk result (λ v. v.items ≡ granted_ranges windows.now) }
{
    windows
        .iter()
        .map(|window| guest_range(window))
        .collect(alloc)
}

// How many pages the tables of these windows take.
#[tactic(auto, using(crate::proofs::TablePages::few_pages))]
fn table_pages(alloc: Global, windows: &[GrantedWindow]) -> Result<u64, NoMemory>
    requires { CanMap windows.now }
    ensures value { IfOk result (λ n. n ≡ ept_pages (granted_ranges windows.now)) }
    ensures most { IfOk result (λ n. n ≤ 2 ^ 28) }
{
    let ranges = guest_ranges(alloc, windows)?;
    Ok(pages(&ranges))
}

// A region of the kernel that may be at any page.
fn anywhere(owner: Name, part: TagPart, size: u64) -> Region
    ensures { result ≡ anywhere Kernel owner part size }
{
    Region {
        tag: Tag { owner, part },
        kind: RegionKind::Kernel,
        size,
        alignment: PAGE,
        fixed: None,
    }
}

// A region of the kernel for the subject of this name, whose tables take so many pages.
fn kernel_region(subject: Name, pages: u64, region: KernelRegion) -> Region
    requires { pages ≤ 2 ^ 28 }
    ensures { result ≡ kernel_region subject pages region }
{
    match region {
        KernelRegion::State => anywhere(subject, TagPart::State, PAGE),
        KernelRegion::Tables => anywhere(subject, TagPart::Ept, pages * PAGE),
        KernelRegion::IoBitmaps => anywhere(subject, TagPart::Iobm, 2 * PAGE),
        KernelRegion::MsrBitmap => anywhere(subject, TagPart::Msrbm, PAGE),
        KernelRegion::MsrArea => anywhere(subject, TagPart::Msrs, PAGE),
    }
}

// All of the subject of this name, whose tables take so many pages.
fn kernel_regions(alloc: Global, subject: Name, pages: u64) -> Result<Vec<Region>, AllocError>
    requires { pages ≤ 2 ^ 28 }
    ensures regions { IfOk result (λ v. v.items ≡ map (kernel_region subject pages) kernel_order) }
    ensures named { is_name subject ≡ true }
{
    KernelRegion::ALL
        .iter()
        .map(|region| kernel_region(subject, pages, *region))
        .collect(alloc)
}

/// The kernel's regions for subjects with these grants, in order.
pub(crate) fn of_kernel(
    alloc: Global,
    subjects: &[Subject],
    grants: &[Grants],
) -> Result<Vec<Region>, NoMemory>
    requires windows { All (λ g. CanMap g.windows) grants.now }
    requires as_many { length subjects.now ≡ length grants.now }
    ensures regions { IfOk result (λ v. v.items ≡ kernel_for_each subjects.now grants.now) }
    ensures named { IfOk result (λ _. HaveNames subjects.now) }
{
    let mut regions = Vec::new(alloc);
    for (subject, granted) in subjects.iter().zip(grants) {
        let pages = table_pages(alloc, granted.windows.items())?;
        let more = kernel_regions(alloc, subject.name, pages)?;
        regions.extend_from_slice(&more)?;
    }
    Ok(regions)
}
