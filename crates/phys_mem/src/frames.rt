//! Pages by their numbers and their bytes, in two lists side by side.
ghost use Rattle.std.specs.Prelude.{◌≡◌, ◌+◌, ◌/◌, ◌^◌, ◌<◌, ◌++◌, length, vec_len, OnOk};
ghost use Rattle.phys_mem.specs.Frames.{pages_in, pages_by};
ghost use Rattle.phys_mem.specs.Spans.{AreSpans, pages_of_spans};

use crate::memory::PAGE_BYTES;
use crate::spans::MemorySpan;
use muen_num::NoMemory;
use muen_num::limits::PAGE;

// Adds the pages of these bytes, of which the first has this number.
fn add_pages(
    numbers: &mut Vec<u64>,
    frames: &mut Vec<[u8; PAGE_BYTES]>,
    first: u64,
    bytes: &[u8],
) -> Result<(), NoMemory>
    requires paired { vec_len numbers.old ≡ vec_len frames.old }
    requires small { first + length bytes.now < 2 ^ 64 }
    ensures pages { OnOk result (pages_by numbers.new.items frames.new.items
        ≡ pages_by numbers.old.items frames.old.items ++ pages_in (length bytes.now / 4096) first bytes.now) }
    ensures paired { OnOk result (vec_len numbers.new ≡ vec_len frames.new) }
{
    numbers.reserve(bytes.len() / PAGE_BYTES)?;
    frames.reserve(bytes.len() / PAGE_BYTES)?;
    let mut rest = bytes;
    let mut number = first;
    while let Some(page) = rest.first_chunk::<PAGE_BYTES>() {
        numbers.push(number)?;
        frames.push(*page)?;
        rest = &rest[PAGE_BYTES..];
        number += 1;
    }
    Ok(())
}

// Adds the pages of these spans.
pub(crate) fn add_spans(
    numbers: &mut Vec<u64>,
    frames: &mut Vec<[u8; PAGE_BYTES]>,
    spans: Vec<MemorySpan>,
) -> Result<(), NoMemory>
    requires spans { AreSpans spans.items }
    requires paired { vec_len numbers.old ≡ vec_len frames.old }
    ensures pages { OnOk result (pages_by numbers.new.items frames.new.items
        ≡ pages_by numbers.old.items frames.old.items ++ pages_of_spans spans.items) }
    ensures paired { OnOk result (vec_len numbers.new ≡ vec_len frames.new) }
{
    for span in spans {
        add_pages(numbers, frames, span.address / PAGE, span.bytes.items())?;
    }
    Ok(())
}
