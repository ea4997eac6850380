//! All pages of the file.
ghost use Rattle.std.specs.Prelude.{◌≡◌, ◌+◌, ◌≤◌, ◌^◌, length, map, IfOk};
ghost use Rattle.dma_emit.specs.Emitted.{ArePages};
ghost use Rattle.dma_emit.specs.Layout.{page_count, tables_page};
ghost use Rattle.dma_emit.specs.Ready.{IsReady};
ghost use Rattle.muen_num.specs.Range.{numbers_below};

use crate::domains::Domains;
use crate::entries::{put_contexts, put_root};
use crate::tables::{all_tables, put_tables};
use muen_num::NoMemory;
use std::alloc::Global;

/// The bytes of all pages, the first of which is the page `root` of physical memory. The pages given are
/// those of the domains' highest tables.
pub(crate) fn all_pages(
    alloc: Global,
    domains: &Domains,
    pages: &[u64],
    root: u64,
) -> Result<Vec<u8>, NoMemory>
    requires ready { IsReady domains.now }
    requires root { root + page_count domains.now ≤ 2 ^ 28 }
    requires pages { pages.now ≡ map (tables_page domains.now) (numbers_below (length domains.now.windows + 1)) }
    ensures { IfOk result (λ v. ArePages domains.now root v.items) }
{
    let tables = all_tables(alloc, domains, pages, root)?;
    let mut out = Vec::new(alloc);
    put_root(&mut out, domains, root)?;
    put_contexts(&mut out, domains, pages, root)?;
    put_tables(&mut out, &tables)?;
    Ok(out)
}
