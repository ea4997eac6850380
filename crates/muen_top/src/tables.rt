// The tables by which the devices of a policy access memory, of its domains.
ghost use Rattle.std.specs.Prelude.{◌≡◌, IfOk, true};
ghost use Rattle.policy_lawful.specs.Resolution.{source_of};
ghost use Rattle.dma_emit.specs.Placed.{IsPlaced};
ghost use Rattle.muen_top.specs.Tables.{AreTablesFor, IsTablesFor};

use dma_emit::{Placed, emit};
use dma_tables::{DmaTables, pack};
use muen_num::NoMemory;
use std::alloc::Global;

// Whether the policy is placed: it is, since its type says so.
fn is_placed(placed: &Placed) -> bool
    ensures is { IsPlaced placed.now }
    ensures holds { result ≡ true }
{
    let _ = placed.expanded();
    true
}

/// The tables of a policy's domains of devices.
pub(crate) fn tables_of(alloc: Global, placed: &Placed) -> Result<DmaTables, NoMemory>
    ensures { IfOk result (AreTablesFor (source_of placed.now.expanded.lawful)) }
{
    prove!(is_placed(placed));
    emit(alloc, placed)
}

/// The bytes of their file.
pub(crate) fn tables_file(alloc: Global, placed: &Placed) -> Result<Vec<u8>, NoMemory>
    ensures { IfOk result (λ v. IsTablesFor (source_of placed.now.expanded.lawful) v.items) }
{
    let tables = tables_of(alloc, placed)?;
    pack(alloc, &tables)
}
