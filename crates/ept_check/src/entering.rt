//! The first fault of tables.
ghost use Rattle.std.specs.Prelude.{◌≡◌, ℕ, suc, ◌+◌, ◌-◌, ◌*◌, ◌%◌, ◌^◌, ◌<◌, ◌≤◌, Some, None, true, false, length, vec_len, IfOk, IfSome};
ghost use Rattle.ept_check.specs.Entries.{pages};
ghost use Rattle.ept_check.specs.Faults.{table_fault_at, table_fault};
ghost use Rattle.ept_check.specs.Known.{Known, come};
ghost use Rattle.ept_check.specs.Looked.{is_entered, left};
ghost use Rattle.ept_check.specs.Pieces.{leaves};
ghost use Rattle.ept_check.specs.Search.{first_from};
ghost use Rattle.ept_check.specs.Sound.{AreSound, AreTables, CanBeChecked, HasOnePathPerTable};
ghost use Rattle.ept_check.specs.Tables.{tables_in};
ghost use Rattle.muen_num.specs.Numbers.{is_among};
ghost use Rattle.ept_check.specs.declared.types.FaultKind.TheVariants.{Twice};
ghost use Rattle.machine_layout.specs.Memory.{is_there};
ghost use Rattle.machine_layout.specs.Walks.{entry_of};

use crate::compare::{SUBJECT_PAGES, addr_of, compare, fault};
use crate::entries::{index_at, leads_on, pages};
use crate::entry_reads::Entries;
use crate::looked::{Entering, Looked, is_table};
use crate::types::{FaultKind, SubjectTables, TableFault};
use machine_layout::entries::{ALL_RIGHTS, PML4_LEVEL, TABLE_ENTRIES, page_number, rights_of};
use muen_num::NoMemory;
use muen_num::limits::PAGE;
use std::alloc::Global;

// A table to which a walk comes: its level, its page, the rights of the entries above it, and the
// first position for which it stands.
#[derive(Clone, Copy)]
struct Table {
    level: u32,
    page: u64,
    rights: u64,
    first: u64,
}

// Whether the walk for a guest address reads outside the tables, from the table in this page on.
fn leaves<E: Entries>(entries: &mut E, tables: &[u64], addr: u64, level: u32, page: u64) -> bool
    requires tables { AreTables (E.pages entries.old) tables.now }
    requires level { level < 4 }
    ensures leaves { result ≡ leaves (entry_of (E.pages entries.old)) (is_among tables.now) addr level page }
    ensures pages { E.pages entries.new ≡ E.pages entries.old }
    ensures work { E.reads entries.new ≤ E.reads entries.old + suc level }
{
    if !is_table(tables, page) {
        return true;
    }
    let Some(entry) = entries.entry(page, index_at(level, addr)) else {
        unreachable!()
    };
    if !leads_on(level, entry) {
        return false;
    }
    leaves(entries, tables, addr, level - 1, page_number(entry))
}

// Enters a table: the first fault among the positions for which it stands. One that was entered before
// isn't entered again: `leaves` reads four entries at most, and a fault is found.
#[cycle(entering)]
fn enter<E: Entries>(
    entries: &mut E,
    tables: &[u64],
    subjects: &[SubjectTables],
    looked: &mut Looked,
    table: Table,
) -> Option<TableFault>
    requires given { CanBeChecked (E.pages entries.old) tables.now subjects.now }
    requires long { vec_len looked.old.entered ≡ length tables.now }
    requires level { table.level < 4 }
    requires first { table.first % pages (suc table.level) ≡ 0 }
    requires last { table.first + pages (suc table.level) ≤ 2 ^ 36 * length subjects.now }
    requires at { come (tables_in (E.pages entries.old) tables.now subjects.now) table.first (3 - table.level) table.level ≡ Some (table.page, table.rights) }
    requires known { Known (tables_in (E.pages entries.old) tables.now subjects.now) (is_entered tables.now looked.old) table.first table.first (suc table.level) }
    ensures found { result ≡ first_from (table_fault_at (tables_in (E.pages entries.old) tables.now subjects.now)) table.first (pages (suc table.level)) }
    ensures known { result ≡ None → Known (tables_in (E.pages entries.old) tables.now subjects.now) (is_entered tables.now looked.new) (table.first + pages (suc table.level)) table.first table.level }
    ensures long { vec_len looked.new.entered ≡ length tables.now }
    ensures pages { E.pages entries.new ≡ E.pages entries.old }
    ensures work { E.reads entries.new + 512 * left looked.new ≤ E.reads entries.old + 512 * left looked.old + 4 }
    ensures work_of_none { result ≡ None → E.reads entries.new + 512 * left looked.new ≤ E.reads entries.old + 512 * left looked.old }
{
    match looked.enter(tables, table.page) {
        Entering::Outside => Some(fault(FaultKind::Outside, table.first)),
        Entering::Again => {
            let addr = addr_of(table.first);
            if leaves(entries, tables, addr, table.level, table.page) {
                return Some(fault(FaultKind::Outside, table.first));
            }
            Some(fault(FaultKind::Twice, table.first))
        }
        Entering::Now => {
            for i in 0..TABLE_ENTRIES {
                if let Some(fault) = follow(entries, tables, subjects, looked, table, i) {
                    return Some(fault);
                }
            }
            None
        }
    }
}

// Follows entry i of a table: the first fault among the positions for which it stands.
#[cycle(entering)]
fn follow<E: Entries>(
    entries: &mut E,
    tables: &[u64],
    subjects: &[SubjectTables],
    looked: &mut Looked,
    table: Table,
    i: u64,
) -> Option<TableFault>
    requires given { CanBeChecked (E.pages entries.old) tables.now subjects.now }
    requires long { vec_len looked.old.entered ≡ length tables.now }
    requires level { table.level < 4 }
    requires first { table.first % pages (suc table.level) ≡ 0 }
    requires last { table.first + pages (suc table.level) ≤ 2 ^ 36 * length subjects.now }
    requires few { i < 512 }
    requires there { is_there (E.pages entries.old) table.page ≡ true }
    requires at { come (tables_in (E.pages entries.old) tables.now subjects.now) table.first (3 - table.level) table.level ≡ Some (table.page, table.rights) }
    requires known { Known (tables_in (E.pages entries.old) tables.now subjects.now) (is_entered tables.now looked.old) (table.first + i * pages table.level) table.first table.level }
    ensures found { result ≡ first_from (table_fault_at (tables_in (E.pages entries.old) tables.now subjects.now)) (table.first + i * pages table.level) (pages table.level) }
    ensures known { result ≡ None → Known (tables_in (E.pages entries.old) tables.now subjects.now) (is_entered tables.now looked.new) (table.first + i * pages table.level + pages table.level) table.first table.level }
    ensures long { vec_len looked.new.entered ≡ length tables.now }
    ensures pages { E.pages entries.new ≡ E.pages entries.old }
    ensures work { E.reads entries.new + 512 * left looked.new ≤ E.reads entries.old + 1 + 512 * left looked.old + 4 }
    ensures work_of_none { result ≡ None → E.reads entries.new + 512 * left looked.new ≤ E.reads entries.old + 1 + 512 * left looked.old }
{
    let Some(entry) = entries.entry(table.page, i) else {
        unreachable!()
    };
    let first = table.first + i * pages(table.level);
    if !leads_on(table.level, entry) {
        let subject = &subjects[(first / SUBJECT_PAGES) as usize];
        return compare(
            entries,
            subject.windows.items(),
            table.level,
            entry,
            table.rights,
            first,
        );
    }
    let below = Table {
        level: table.level - 1,
        page: page_number(entry),
        rights: table.rights & rights_of(entry),
        first,
    };
    enter(entries, tables, subjects, looked, below)
}

// The first fault of all subjects' tables, of which none was entered yet.
fn first_fault<E: Entries>(
    entries: &mut E,
    tables: &[u64],
    subjects: &[SubjectTables],
    looked: &mut Looked,
) -> Option<TableFault>
    requires given { CanBeChecked (E.pages entries.old) tables.now subjects.now }
    requires long { vec_len looked.old.entered ≡ length tables.now }
    requires none { (t : ℕ) → is_entered tables.now looked.old t ≡ false }
    ensures fault { result ≡ table_fault (tables_in (E.pages entries.old) tables.now subjects.now) }
    ensures pages { E.pages entries.new ≡ E.pages entries.old }
    ensures work { E.reads entries.new ≤ E.reads entries.old + 512 * left looked.old + 4 }
{
    for subject in 0..subjects.len() {
        let root = Table {
            level: PML4_LEVEL,
            page: subjects[subject].eptp / PAGE,
            rights: ALL_RIGHTS,
            first: SUBJECT_PAGES * subject as u64,
        };
        if let Some(fault) = enter(entries, tables, subjects, looked, root) {
            return Some(fault);
        }
    }
    None
}

/// The first fault of tables in a memory, where the pages of these numbers are declared to be tables:
/// subject by subject, and for each its guest pages ascending, each by the tests of `FaultKind` in
/// order; `None` where there is none. No more entries are read than the declared tables have, however
/// these point at one another, and four: those of one walk, which tell `Outside` from `Twice` where a
/// table is come to again.
///
/// # Errors
/// Memory is refused.
pub fn check<E: Entries>(
    alloc: Global,
    entries: &mut E,
    tables: &[u64],
    subjects: &[SubjectTables],
) -> Result<Option<TableFault>, NoMemory>
    requires given { CanBeChecked (E.pages entries.old) tables.now subjects.now }
    // exactly the first test that fails
    ensures fault { IfOk result (λ o. o ≡ table_fault (tables_in (E.pages entries.old) tables.now subjects.now)) }
    // without a fault the tables are sound
    ensures sound { IfOk result (λ o. o ≡ None → AreSound (tables_in (E.pages entries.old) tables.now subjects.now)) }
    // sound tables of which each is read on one path have no fault
    ensures complete { IfOk result (λ o. AreSound (tables_in (E.pages entries.old) tables.now subjects.now) → HasOnePathPerTable (tables_in (E.pages entries.old) tables.now subjects.now) → o ≡ None) }
    // any other fault than that a table is read on two paths tells that they aren't sound
    ensures unsound { IfOk result (λ o. IfSome o (λ f. AreSound (tables_in (E.pages entries.old) tables.now subjects.now) → f.kind ≡ Twice)) }
    ensures pages { E.pages entries.new ≡ E.pages entries.old }
    ensures work { E.reads entries.new ≤ E.reads entries.old + 512 * length tables.now + 4 }
{
    let mut looked = Looked::none(alloc, tables.len())?;
    Ok(first_fault(entries, tables, subjects, &mut looked))
}
