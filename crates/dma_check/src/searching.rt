//! The first fault of tables at the addresses of a source.
ghost use Rattle.std.specs.Prelude.{◌≡◌, ◌<◌, ◌^◌, ◌*◌, ◌+◌, Some, None, true, false, All, option_map, if◌then◌else◌, ◌&&◌, nat_le, nat_lt, not, vec_len};
ghost use Rattle.std.specs.List.{find};
ghost use Rattle.std.specs.Option.{option_map_or};
ghost use Rattle.muen_num.specs.declared.limits.TheConstants.{PAGE};
ghost use Rattle.dma_check.specs.Again.{WhereKnown};
ghost use Rattle.dma_check.specs.Faults.{astray, contents, fault_at, fault_of_kind, is_lack, same_end};
ghost use Rattle.dma_check.specs.Held.{IsLow, KeepsMarks, KeepsMarksOf, MarkedTo, OverDeclared, contents_at, has_address, told, told_by};
ghost use Rattle.dma_check.specs.Views.{table_at};
ghost use Rattle.dma_tables.specs.DmaFile.{page_count_of};
ghost use Rattle.dma_tables.specs.Lowered.{is_in_spans};
ghost use Rattle.ept_check.specs.Search.{first_from};

use crate::fault::{FaultKind, TableFault};
use crate::held::DmaWindow;
use crate::marks::{is_outside, mark_all};
use crate::path::{Path, Way};
use crate::pieces::{end_of, kept, level_of};
use crate::reading::{path_of, walk};
use dma_tables::DmaFile;
use image_pack::SpanPart;
use muen_num::AccessKind;
use muen_num::limits::{GUEST_END, PAGE};

// ---- where accesses come to

// Whether a span has the byte of this address.
fn is_in_span(span: &SpanPart, place: u64) -> bool
    ensures { result ≡ (nat_le span.now.address place && nat_lt place (span.now.address + PAGE * span.now.pages)) }
{
    span.address <= place && (place - span.address) / PAGE < u64::from(span.pages)
}

// Whether memory has the byte of this address.
fn is_memory(spans: &[SpanPart], place: u64) -> bool
    ensures { result ≡ is_in_spans spans.now place }
{
    spans.iter().any(|span| is_in_span(span, place))
}

fn has_address(window: &DmaWindow, addr: u64) -> bool
    ensures { result ≡ has_address addr window.now }
{
    window.guest <= addr && addr - window.guest < window.size
}

fn window_at(windows: &[DmaWindow], addr: u64) -> Option<&DmaWindow>
    ensures { option_map (λ w. w.now) result ≡ find (has_address addr) windows.now }
{
    windows.iter().find(|window| has_address(window, addr))
}

// Where the window that has an address leads a read, or a write.
fn told_by(window: &DmaWindow, addr: u64, write: bool) -> Option<u64>
    requires has { has_address addr window.now ≡ true }
    requires low { IsLow window.now }
    requires addr { addr < 2 ^ 48 }
    ensures { result ≡ told_by (Some window.now) addr write }
{
    let kind = if write {
        AccessKind::Write
    } else {
        AccessKind::Read
    };
    if window.rights.allows(kind) {
        Some(window.address + (addr - window.guest))
    } else {
        None
    }
}

// Where windows lead a read, or a write.
fn told(windows: &[DmaWindow], addr: u64, write: bool) -> Option<u64>
    requires low { All IsLow windows.now }
    requires addr { addr < 2 ^ 48 }
    ensures { result ≡ told windows.now addr write }
{
    match window_at(windows, addr) {
        None => None,
        Some(window) => told_by(window, addr, write),
    }
}

fn same_end(a: Option<u64>, b: Option<u64>) -> bool
    ensures { result ≡ same_end a b }
{
    match (a, b) {
        (None, None) => true,
        (Some(x), Some(y)) => x == y,
        _ => false,
    }
}

// The address to which an access comes, where that isn't declared.
fn astray(walked: Option<u64>, told: Option<u64>) -> Option<u64>
    ensures { result ≡ astray walked told }
{
    if walked.is_none() || same_end(walked, told) {
        return None;
    }
    walked
}

fn is_lack(walked: Option<u64>, told: Option<u64>) -> bool
    ensures { result ≡ is_lack walked told }
{
    walked.is_none() && told.is_some()
}

// Whether there is a place out of memory.
fn is_out(spans: &[SpanPart], place: Option<u64>) -> bool
    ensures { result ≡ option_map_or (λ a. not (is_in_spans spans.now a)) place false }
{
    match place {
        None => false,
        Some(place) => !is_memory(spans, place),
    }
}

// Whether there is one in memory.
fn is_leak(spans: &[SpanPart], place: Option<u64>) -> bool
    ensures { result ≡ option_map_or (is_in_spans spans.now) place false }
{
    match place {
        None => false,
        Some(place) => is_memory(spans, place),
    }
}

// ---- at an address

fn fault(kind: FaultKind, source: u32, addr: u64) -> TableFault
    requires source { source < 65536 }
    requires addr { addr < 2 ^ 48 }
    ensures { result ≡ fault_of_kind kind (2 ^ 48 * source + addr) }
{
    TableFault {
        kind,
        bus: (source / 256) as u8,
        devfn: (source % 256) as u8,
        addr,
    }
}

// Where a read and a write come to, or where they are declared.
#[derive(Clone, Copy)]
struct Ends {
    read: Option<u64>,
    write: Option<u64>,
}

// The fault of accesses at an address that come here, and are declared there.
fn compare(
    spans: &[SpanPart],
    walked: Ends,
    told: Ends,
    source: u32,
    addr: u64,
) -> Option<TableFault>
    requires source { source < 65536 }
    requires addr { addr < 2 ^ 48 }
    ensures { result ≡ contents (is_in_spans spans.now) (λ q write. if write then walked.write else walked.read) (λ q write. if write then told.write else told.read) (2 ^ 48 * source + addr) }
{
    let read = astray(walked.read, told.read);
    let write = astray(walked.write, told.write);
    if is_out(spans, read) || is_out(spans, write) {
        return Some(fault(FaultKind::Outside, source, addr));
    }
    if is_leak(spans, read) || is_leak(spans, write) {
        return Some(fault(FaultKind::Leak, source, addr));
    }
    if is_lack(walked.read, told.read) || is_lack(walked.write, told.write) {
        return Some(fault(FaultKind::Lacks, source, addr));
    }
    None
}

// The fault of accesses by an address of a source, from the highest table of the second level on.
fn contents_fault(
    file: &DmaFile,
    spans: &[SpanPart],
    windows: &[DmaWindow],
    source: u32,
    addr: u64,
    highest: Option<u64>,
) -> Option<TableFault>
    requires low { All IsLow windows.now }
    requires source { source < 65536 }
    requires addr { addr < 2 ^ 48 }
    ensures { OverDeclared file.now spans.now windows.now source (λ v. highest ≡ table_at v (2 ^ 48 * source + addr) 2 → result ≡ contents_at v (2 ^ 48 * source + addr)) }
{
    let walked = Ends {
        read: walk(file, addr, false, highest),
        write: walk(file, addr, true, highest),
    };
    let told = Ends {
        read: told(windows, addr, false),
        write: told(windows, addr, true),
    };
    compare(spans, walked, told, source, addr)
}

// The fault at an address of a source, whose tables are marked.
fn fault_here(
    file: &DmaFile,
    spans: &[SpanPart],
    windows: &[DmaWindow],
    ways: &mut Vec<Option<Way>>,
    source: u32,
    addr: u64,
) -> Option<TableFault>
    requires low { All IsLow windows.now }
    requires source { source < 65536 }
    requires addr { addr < 2 ^ 48 }
    requires long { vec_len ways.old ≡ page_count_of file.now }
    ensures long { vec_len ways.new ≡ vec_len ways.old }
    ensures found { OverDeclared file.now spans.now windows.now source (λ v. MarkedTo file.now ways.old.items (2 ^ 48 * source + addr) v → result ≡ fault_at v (2 ^ 48 * source + addr)) }
    ensures known { OverDeclared file.now spans.now windows.now source (KeepsMarks file.now ways.old.items ways.new.items result (2 ^ 48 * source + addr)) }
{
    let path = path_of(file, source, addr);
    if is_outside(file, &path) {
        return Some(fault(FaultKind::Outside, source, addr));
    }
    if !mark_all(ways, &path, source, addr) {
        return Some(fault(FaultKind::Twice, source, addr));
    }
    contents_fault(file, spans, windows, source, addr, path.level_3)
}

// The first fault at the addresses of a source that has these windows. Where the walk comes to no
// other table, and no window begins or ends, one address is looked at.
fn source_fault(
    file: &DmaFile,
    spans: &[SpanPart],
    windows: &[DmaWindow],
    ways: &mut Vec<Option<Way>>,
    source: u32,
) -> Option<TableFault>
    requires low { All IsLow windows.now }
    requires source { source < 65536 }
    requires long { vec_len ways.old ≡ page_count_of file.now }
    ensures long { vec_len ways.new ≡ vec_len ways.old }
    ensures found { OverDeclared file.now spans.now windows.now source (λ v. MarkedTo file.now ways.old.items (2 ^ 48 * source) v → result ≡ first_from (fault_at v) (2 ^ 48 * source) (2 ^ 48)) }
    ensures known { OverDeclared file.now spans.now windows.now source (KeepsMarksOf file.now ways.old.items ways.new.items result source) }
{
    let mut addr = 0;
    while addr < GUEST_END {
        if let Some(fault) = fault_here(file, spans, windows, ways, source, addr) {
            return Some(fault);
        }
        let end = end_of(addr, level_of(&path_of(file, source, addr)));
        addr += kept(windows, addr, end - addr);
    }
    None
}

/// The first fault at the addresses of a source that has these windows. Where it is said that an earlier
/// source with these has its highest table, and so has no fault by that, one address is looked at.
pub(crate) fn fault_of(
    file: &DmaFile,
    spans: &[SpanPart],
    windows: &[DmaWindow],
    ways: &mut Vec<Option<Way>>,
    source: u32,
    again: bool,
) -> Option<TableFault>
    requires low { All IsLow windows.now }
    requires source { source < 65536 }
    requires long { vec_len ways.old ≡ page_count_of file.now }
    ensures long { vec_len ways.new ≡ vec_len ways.old }
    ensures found { WhereKnown file.now spans.now windows.now source again (λ v. MarkedTo file.now ways.old.items (2 ^ 48 * source) v → result ≡ first_from (fault_at v) (2 ^ 48 * source) (2 ^ 48)) }
    ensures known { WhereKnown file.now spans.now windows.now source again (KeepsMarksOf file.now ways.old.items ways.new.items result source) }
{
    if again {
        return fault_here(file, spans, windows, ways, source, 0);
    }
    source_fault(file, spans, windows, ways, source)
}
