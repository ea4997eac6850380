//! The walk that keeps where walks led.
ghost use Rattle.std.specs.Prelude.{◌≡◌, ◌==◌, ◌&&◌, ◌-◌, ◌*◌, ◌<◌, ◌≤◌, ◌^◌, ℕ, List, true, false, length, vec_len, slice_index_or, slice_set, IfOk, option_map, Some, None};
ghost use Rattle.std.specs.List.{All};
ghost use Rattle.muen_num.specs.Access.{kind_bit};
ghost use Rattle.machine_layout.specs.Memory.{Page, is_there};
ghost use Rattle.machine_layout.specs.Walks.{walk_of, addresses_read};
ghost use Rattle.ept_walk.specs.Ends.{judged, LeadsToPage, IsEntryOf};
ghost use Rattle.ept_walk.specs.Held.{KeptBy, ChangedBy, is_unchanged, is_fresh};

use crate::Translate;
use crate::trace::{End, LEVELS, is_there, leaf_end, trace};
use machine_layout::Walk;
use machine_layout::entries::{ALL_RIGHTS, PML4_LEVEL};
use muen_num::limits::PAGE;
use muen_num::{AccessKind, NoMemory};
use phys_mem::PhysMem;
use std::alloc::{AllocError, Global};

/// How many times of changes there are: pages whose numbers have the same remainder share one.
const TIMES: usize = 16384;

/// What the number of an EPTP's page counts beside that of a guest page.
const ROOT_FACTOR: u64 = 2531;

/// What both are multiplied by for the index of a slot: 2^64 over the golden ratio, so that pages side by
/// side, pages that are a power of two apart, and those of several subjects lie far apart.
const SPREAD: u64 = 0x9e37_79b9_7f4a_7c15;

/// From which bit of the product the index is taken.
const INDEX_BIT: u32 = 40;

/// Where a guest page leads.
#[derive(Clone, Copy, Debug)]
pub struct Slot {
    eptp: u64,
    /// The number of the guest page.
    page: u64,
    /// The rights of the whole walk, as bits 2:0 of an entry.
    rights: u64,
    /// The number of the physical page.
    frame: u64,
    /// The page of the table of each level; where a walk ends above a level, the page of the PML4
    /// table.
    tables: [u64; LEVELS],
    /// The clock when this was kept.
    since: u64,
}

/// Walks EPT tables, and keeps where walks led.
///
/// The clock counts the changes of memory that it was told of. What is kept holds as long as no page
/// of the tables that it was read from has changed since, so that a change costs two writes, however
/// much is kept.
#[derive(Debug, Drop)]
pub struct CachedWalk {
    slots: Vec<Option<Slot>>,
    clock: u64,
    /// By the remainder of a page's number the clock at the last change of such a page.
    changed: Vec<u64>,
    ghost some: { 0 < vec_len slots },
    ghost whole: { vec_len changed ≡ 16384 },
    ghost kept_by: { KeptBy clock slots.items },
    ghost changed_by: { ChangedBy clock changed.items },
}

// So many slots with nothing in them.
fn empty_slots(alloc: Global, count: usize) -> Result<Vec<Option<Slot>>, AllocError>
    ensures long { IfOk result (λ v. length v.items ≡ count) }
    ensures none { IfOk result (λ v. (i : ℕ) → slice_index_or v.items i None ≡ None) }
{
    let mut slots = Vec::new(alloc);
    slots.resize(count, None)?;
    Ok(slots)
}

// So many times at which nothing has changed yet.
fn no_times(alloc: Global, count: usize) -> Result<Vec<u64>, AllocError>
    ensures long { IfOk result (λ v. length v.items ≡ count) }
    ensures none { IfOk result (λ v. (i : ℕ) → slice_index_or v.items i 0 ≡ 0) }
{
    let mut changed = Vec::new(alloc);
    changed.resize(count, 0)?;
    Ok(changed)
}

// Empties each slot.
fn clear_slots(slots: &mut [Option<Slot>])
    ensures long { length slots.new ≡ length slots.old }
    ensures none { (i : ℕ) → slice_index_or slots.new i None ≡ None }
{
    for slot in slots.iter_mut() {
        *slot = None;
    }
}

// Sets each time to zero.
fn clear_times(changed: &mut [u64])
    ensures long { length changed.new ≡ length changed.old }
    ensures none { (i : ℕ) → slice_index_or changed.new i 0 ≡ 0 }
{
    for time in changed.iter_mut() {
        *time = 0;
    }
}

// Whether the table of this level is unchanged since the slot was kept.
fn is_unchanged(changed: &[u64], slot: &Slot, level: usize) -> bool
    requires long { length changed.now ≡ 16384 }
    requires level { level < 4 }
    ensures { result ≡ is_unchanged changed.now slot.now level }
{
    changed[slot.tables[level] as usize % TIMES] <= slot.since
}

// Whether all its tables are.
fn is_fresh(changed: &[u64], slot: &Slot) -> bool
    requires { length changed.now ≡ 16384 }
    ensures { result ≡ is_fresh changed.now slot.now }
{
    is_unchanged(changed, slot, 0)
        && is_unchanged(changed, slot, 1)
        && is_unchanged(changed, slot, 2)
        && is_unchanged(changed, slot, 3)
}

// Where the first address of a guest page leads, and the pages of the tables that are read.
fn follow<M: PhysMem>(mem: &M, eptp: u64, page: u64) -> (End, [u64; LEVELS])
    requires { page < 2 ^ 52 }
    ensures end { (kind : AccessKind) → walk_of (M.pages mem.now) eptp (4096 * page) kind ≡ judged (is_there (M.pages mem.now)) (4096 * page) (kind_bit kind) result.0 }
    ensures noted { All (IsEntryOf result.1) (addresses_read (M.pages mem.now) eptp (4096 * page)) }
    ensures page { LeadsToPage result.0 }
{
    let root = eptp / PAGE;
    let mut tables = [root; LEVELS];
    let end = trace(mem, PAGE * page, PML4_LEVEL, root, ALL_RIGHTS, &mut tables);
    (end, tables)
}

impl CachedWalk {
    ghost use Rattle.ept_walk.specs.Held.{slot_index, looked_up, IsPower};
    ghost use Rattle.ept_walk.specs.Cache.{FitsCached, holds_of};

    /// A walk that holds nothing yet, with room for so many translations: a power of two up to 4,096.
    ///
    /// # Errors
    /// Memory is refused.
    pub fn new(alloc: Global, entries: usize) -> Result<CachedWalk, NoMemory>
        requires { IsPower entries }
        ensures fits { IfOk result (λ w. (m : List Page) → FitsCached w m) }
        ensures holds { IfOk result (λ w. (eptp addr : ℕ) → holds_of w eptp addr ≡ false) }
    {
        let slots = empty_slots(alloc, entries)?;
        let changed = no_times(alloc, TIMES)?;
        Ok(CachedWalk {
            slots,
            clock: 0,
            changed,
        })
    }

    // The index of the slot of a guest page.
    fn slot_index(&self, eptp: u64, page: u64) -> usize
        requires { page < 2 ^ 52 }
        ensures index { result ≡ slot_index (vec_len self.now.slots) eptp page }
        ensures within { result < vec_len self.now.slots }
    {
        let key = page + ROOT_FACTOR * (eptp / PAGE);
        (key.wrapping_mul(SPREAD) >> INDEX_BIT) as usize & (self.slots.len() - 1)
    }

    // Whether a slot is of this EPTP and guest page, and fresh.
    fn is_held(&self, slot: &Slot, eptp: u64, page: u64) -> bool
        ensures { result ≡ ((slot.now.eptp == eptp) && ((slot.now.page == page) && is_fresh self.now.changed.items slot.now)) }
    {
        slot.eptp == eptp && slot.page == page && is_fresh(&self.changed, slot)
    }

    // What is held for a guest page.
    fn look_up(&self, eptp: u64, page: u64) -> Option<&Slot>
        requires { page < 2 ^ 52 }
        ensures { option_map (λ s. s.now) result ≡ looked_up self.now.slots.items self.now.changed.items eptp page }
    {
        match &self.slots[self.slot_index(eptp, page)] {
            Some(slot) if self.is_held(slot, eptp, page) => Some(slot),
            _ => None,
        }
    }

    /// Whether a translation is held for a guest address.
    pub fn holds(&self, eptp: u64, addr: u64) -> bool
        ensures { result ≡ holds_of self.now eptp addr }
    {
        self.look_up(eptp, addr / PAGE).is_some()
    }

    // Keeps a translation.
    fn keep(&mut self, slot: Slot)
        requires page { slot.page < 2 ^ 52 }
        requires since { slot.since ≤ self.old.clock }
        ensures slots { self.new.slots.items ≡ slice_set self.old.slots.items (slot_index (length self.old.slots.items) slot.eptp slot.page) (Some slot) }
        ensures changed { self.new.changed.items ≡ self.old.changed.items }
    {
        let index = self.slot_index(slot.eptp, slot.page);
        self.slots[index] = Some(slot);
    }
}

impl CachedWalk {
    ghost use Rattle.ept_walk.specs.Held.{KeepsUntouched};

    // Gives up everything, and begins to count anew.
    fn forget_all(&mut self)
        ensures { (i : ℕ) → slice_index_or self.new.slots.items i None ≡ None }
    {
        clear_slots(&mut self.slots);
        clear_times(&mut self.changed);
        self.clock = 0;
    }

    // Tells that the pages of the first and of the last of these bytes change now.
    fn note_change(&mut self, at: u64, len: u64)
        requires clock { self.old.clock < 2 ^ 64 - 1 }
        requires len { len ≤ 4096 }
        ensures { KeepsUntouched at len self.old.slots.items self.old.changed.items self.new.slots.items self.new.changed.items }
    {
        let first = at / PAGE;
        let last = first + (at % PAGE + len.saturating_sub(1)) / PAGE;
        self.clock += 1;
        self.changed[first as usize % TIMES] = self.clock;
        self.changed[last as usize % TIMES] = self.clock;
    }

    // Gives up what was read from the `len` bytes from `at` on.
    fn drop_read(&mut self, at: u64, len: u64)
        ensures { KeepsUntouched at len self.old.slots.items self.old.changed.items self.new.slots.items self.new.changed.items }
    {
        if len > PAGE || self.clock == u64::MAX {
            self.forget_all();
        } else {
            self.note_change(at, len);
        }
    }
}

impl CachedWalk {
    ghost use Rattle.machine_layout.specs.declared.walk.Walk.TheVariants.{At};
    ghost use Rattle.ept_walk.specs.Cache.{FitsCached, holds_of};

    // The walk by the tables, kept if it leads to a page that is there.
    fn walk_anew<M: PhysMem>(&mut self, mem: &M, eptp: u64, addr: u64, kind: AccessKind) -> Walk
        requires { FitsCached self.old (M.pages mem.now) }
        ensures walk { result ≡ walk_of (M.pages mem.now) eptp addr kind }
        ensures fits { FitsCached self.new (M.pages mem.now) }
        ensures held { (place : ℕ) → result ≡ At place → holds_of self.new eptp addr ≡ true }
    {
        let page = addr / PAGE;
        let (end, tables) = follow(mem, eptp, page);
        match end {
            End::Absent => Walk::Violation(0),
            End::Invalid => Walk::Misconfigured,
            End::Leads(target) => {
                let frame = target.address / PAGE;
                if is_there(mem, frame) {
                    self.keep(Slot {
                        eptp,
                        page,
                        rights: target.rights,
                        frame,
                        tables,
                        since: self.clock,
                    });
                }
                leaf_end(
                    mem,
                    kind.bit() as u64,
                    target.rights,
                    target.address + addr % PAGE,
                )
            }
        }
    }
}

impl Translate for CachedWalk {
    ghost use Rattle.machine_layout.specs.Same.{SameOutside};
    ghost use Rattle.machine_layout.specs.declared.walk.Walk.TheVariants.{At};
    ghost use Rattle.ept_walk.specs.Cache.{FitsCached, holds_of, Drops};

    ghost fits = { FitsCached };

    fn walk<M: PhysMem>(&mut self, mem: &M, eptp: u64, addr: u64, kind: AccessKind) -> Walk
        requires fits { FitsCached self.old (M.pages mem.now) }
        requires addr { addr < 2 ^ 48 }
        ensures walk { result ≡ walk_of (M.pages mem.now) eptp addr kind }
        ensures fits { FitsCached self.new (M.pages mem.now) }
        ensures held { (place : ℕ) → result ≡ At place → holds_of self.new eptp addr ≡ true }
    {
        let Some(slot) = self.look_up(eptp, addr / PAGE) else {
            return self.walk_anew(mem, eptp, addr, kind);
        };
        let want = kind.bit() as u64;
        if slot.rights & want != want {
            return Walk::Violation(slot.rights);
        }
        Walk::At(PAGE * slot.frame + addr % PAGE)
    }

    fn stored(&mut self, at: u64, len: u64)
        ensures fits { (old new : List Page) → FitsCached self.old old → SameOutside at len old new → FitsCached self.new new }
        ensures drops { Drops at len self.old self.new }
    {
        self.drop_read(at, len);
    }
}
