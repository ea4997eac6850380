//! Sources whose tables were walked already, for an earlier source with the same windows.
ghost use Rattle.std.specs.Prelude.{◌≡◌, ◌<◌, ◌+◌, ℕ, None, true, IfOk, IfSome, slice_index_or};
ghost use Rattle.dma_check.specs.Again.{AreEarlier, IsAgain, highest_of};
ghost use Rattle.dma_check.specs.Numbered.{windows_by};
ghost use Rattle.policy_lawful.specs.Resolution.{source_of};

use crate::held::DmaWindow;
use crate::reading::{highest_of, root_page};
use crate::windows::windows_by;
use dma_tables::DmaFile;
use muen_num::NoMemory;
use policy_lawful::Resolved;
use std::alloc::Global;

/// No source beside any of so many pages.
///
/// # Errors
/// Memory is refused.
pub(crate) fn no_sources(alloc: Global, pages: usize) -> Result<Vec<Option<u32>>, NoMemory>
    ensures { IfOk result (λ v. (k : ℕ) → slice_index_or v.items k None ≡ None) }
{
    let sources = vec![in alloc; None; pages]?;
    Ok(sources)
}

// The source beside the highest table of a source, if there is one.
fn earlier_of(file: &DmaFile, earlier: &[Option<u32>], source: u32) -> Option<u32>
    requires source { source < 65536 }
    requires earlier { AreEarlier file.now source earlier.now }
    ensures before { IfSome result (λ s. s < source) }
    ensures highest { IfSome result (λ s. highest_of file.now s ≡ highest_of file.now source) }
{
    let table = highest_of(file, source)?;
    let root = root_page(file);
    if table < root {
        return None;
    }
    let k = (table - root) as usize;
    if k >= earlier.len() {
        return None;
    }
    earlier[k]
}

fn same_windows(a: &[DmaWindow], b: &[DmaWindow]) -> bool
    ensures { result ≡ true → a.now ≡ b.now }
{
    a == b
}

/// Whether an earlier source, which stands beside its highest table, has this one's highest table, and these
/// windows, which are this one's.
///
/// # Errors
/// Memory is refused.
pub(crate) fn is_again(
    alloc: Global,
    policy: &Resolved,
    addresses: &[u64],
    file: &DmaFile,
    earlier: &[Option<u32>],
    windows: &[DmaWindow],
    source: u32,
) -> Result<bool, NoMemory>
    requires source { source < 65536 }
    requires earlier { AreEarlier file.now source earlier.now }
    requires windows { windows.now ≡ windows_by (source_of policy.now) addresses.now source }
    ensures { IfOk result (λ b. b ≡ true → IsAgain file.now (source_of policy.now) addresses.now source) }
{
    let Some(other) = earlier_of(file, earlier, source) else {
        return Ok(false);
    };
    let others = windows_by(alloc, policy, addresses, other)?;
    Ok(same_windows(&others, windows))
}

/// Puts a source beside its highest table, if that is a page of the file.
pub(crate) fn note(file: &DmaFile, earlier: &mut Vec<Option<u32>>, source: u32)
    requires source { source < 65536 }
    requires earlier { AreEarlier file.now source earlier.old.items }
    ensures { AreEarlier file.now (source + 1) earlier.new.items }
{
    let Some(table) = highest_of(file, source) else {
        return;
    };
    let root = root_page(file);
    if table < root {
        return;
    }
    let k = (table - root) as usize;
    if k < earlier.len() {
        earlier[k] = Some(source);
    }
}
