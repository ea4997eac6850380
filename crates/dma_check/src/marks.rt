//! Which tables were come to, and by which path.
ghost use Rattle.std.specs.Prelude.{◌&&◌, ◌≡◌, ◌<◌, ◌≤◌, ◌^◌, ◌*◌, ◌+◌, not, ℕ, Bool, List, Option, Some, None, true, false, IfOk, IfSome, length, vec_len};
ghost use Rattle.dma_check.specs.Faults.{is_twice};
ghost use Rattle.dma_check.specs.Marked.{AreWithin, IsWithin, Marked, Marks, WhereMarked, has_outside, is_out, seen_in};
ghost use Rattle.dma_check.specs.Views.{View, has_page};

use crate::path::{Path, Way};
use crate::reading::has_page;
use dma_tables::DmaFile;
use machine_layout::entries::entry_size;

// Whether there is a table, in a page that the file doesn't have.
fn is_out(file: &DmaFile, table: Option<u64>) -> bool
    ensures { result ≡ is_out (has_page file.now) table }
{
    match table {
        None => false,
        Some(page) => !has_page(file, page),
    }
}

/// Whether a walk comes to a table that isn't one of the file's pages.
pub(crate) fn is_outside(file: &DmaFile, path: &Path) -> bool
    ensures { result ≡ has_outside (has_page file.now) path.now }
{
    !has_page(file, path.root)
        || is_out(file, path.context)
        || is_out(file, path.level_3)
        || is_out(file, path.level_2)
        || is_out(file, path.level_1)
        || is_out(file, path.level_0)
}

// Marks a table, if there is one, with the path to it; `false` where it has another.
fn mark(ways: &mut Vec<Option<Way>>, root: u64, table: Option<u64>, way: Way) -> bool
    requires { IsWithin root (vec_len ways.old) table }
    ensures marks { Marks (seen_in root ways.old.items) (seen_in root ways.new.items) table way result }
    ensures long { vec_len ways.new ≡ vec_len ways.old }
{
    let Some(table) = table else {
        return true;
    };
    let i = (table - root) as usize;
    match ways[i] {
        None => {
            ways[i] = Some(way);
            true
        }
        Some(other) => other == way,
    }
}

fn both(a: bool, b: bool) -> bool
    ensures { result ≡ (a && b) }
{
    a && b
}

/// Marks the tables to which the walk for an address of a source comes, each with its path; `false` where
/// one has another, since it was come to by that.
pub(crate) fn mark_all(ways: &mut Vec<Option<Way>>, path: &Path, source: u32, addr: u64) -> bool
    requires within { AreWithin path.now (vec_len ways.old) }
    requires source { source < 65536 }
    requires addr { addr < 2 ^ 48 }
    ensures long { vec_len ways.new ≡ vec_len ways.old }
    ensures marks { WhereMarked ways.old.items path.now (2 ^ 48 * source + addr) (λ v. result ≡ true → Marked v (seen_in path.now.root ways.new.items) (6 * (2 ^ 48 * source + addr) + 6)) }
    ensures twice { WhereMarked ways.old.items path.now (2 ^ 48 * source + addr) (λ v. result ≡ false → is_twice v (2 ^ 48 * source + addr) ≡ true) }
{
    let root = path.root;
    let highest = path.level_3.unwrap_or(0);
    let context = Way {
        depth: 1,
        highest: 0,
        part: u64::from(source) / 256,
    };
    let level_2 = Way {
        depth: 3,
        highest,
        part: addr / entry_size(3),
    };
    let level_1 = Way {
        depth: 4,
        highest,
        part: addr / entry_size(2),
    };
    let level_0 = Way {
        depth: 5,
        highest,
        part: addr / entry_size(1),
    };
    let first = mark(
        ways,
        root,
        Some(root),
        Way {
            depth: 0,
            highest: 0,
            part: 0,
        },
    );
    let second = mark(ways, root, path.context, context);
    let third = mark(
        ways,
        root,
        path.level_3,
        Way {
            depth: 2,
            highest,
            part: 0,
        },
    );
    let fourth = mark(ways, root, path.level_2, level_2);
    let fifth = mark(ways, root, path.level_1, level_1);
    let last = mark(ways, root, path.level_0, level_0);
    let second = both(first, second);
    let third = both(second, third);
    let fourth = both(third, fourth);
    let fifth = both(fourth, fifth);
    both(fifth, last)
}
