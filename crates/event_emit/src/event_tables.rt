//! The tables of events of subjects.
ghost use Rattle.std.specs.Prelude.{◌≡◌, ◌<◌, ◌^◌, map, option_map, IfOk, IfSome};
ghost use Rattle.std.specs.List.{All, AllZip, find};
ghost use Rattle.event_emit.specs.ByIndex.{ReachFew, event_part_for_way, event_part, has_way, event_table_of, event_tables_of};
ghost use Rattle.event_emit.specs.Tables.{AreTables};
ghost use Rattle.expand_grants.specs.declared.granted.Way.TheVariants.{Call, Trap};

use expand_grants::{EventEntry, Grants, Way};
use expand_kernel::Expanded;
use image_pack::EventPart;
use muen_num::limits::MOST_CALLS;
use muen_num::{NoMemory, Seq};
use std::alloc::Global;

/// The tables of events of a subject.
#[derive(Debug, Drop)]
pub struct EventTables {
    /// What its calls raise, by their numbers, 64 of them.
    pub calls: Seq<Option<EventPart>>,
    /// What its traps raise, by their exit reasons, 64 of them.
    pub traps: Seq<Option<EventPart>>,
}

fn has_way(entry: &EventEntry, way: Way) -> bool
    ensures { result ≡ has_way way entry.now }
{
    match (entry.way, way) {
        (Way::Call(a), Way::Call(b)) | (Way::Trap(a), Way::Trap(b)) => a == b,
        _ => false,
    }
}

fn event_part(entry: &EventEntry) -> EventPart
    requires { entry.now.target < 2 ^ 8 }
    ensures { result ≡ event_part entry.now }
{
    EventPart {
        mode: entry.mode,
        target: entry.target as u8,
        vector: entry.vector,
    }
}

// The first of these entries for a way.
fn entry_for(entries: &[EventEntry], way: Way) -> Option<&EventEntry>
    ensures { option_map (λ e. e.now) result ≡ find (has_way way) entries.now }
{
    entries.iter().find(|entry| has_way(entry, way))
}

// The event that these entries have for a way.
fn entry_at(entries: &[EventEntry], way: Way) -> Option<EventPart>
    requires { IfSome (find (has_way way) entries.now) (λ e. e.target < 2 ^ 8) }
    ensures { result ≡ event_part_for_way entries.now way }
{
    let entry = entry_for(entries, way)?;
    Some(event_part(entry))
}

// What these entries raise by calls, by their numbers.
#[tactic(auto, unfolding(crate::specs::ByIndex::event_table_of))]
fn calls(alloc: Global, entries: &[EventEntry]) -> Result<Seq<Option<EventPart>>, NoMemory>
    requires { ReachFew entries.now }
    ensures { IfOk result (λ table. table ≡ event_table_of entries.now Call) }
{
    let mut table = Seq::new(alloc);
    for number in 0..MOST_CALLS as u8 {
        table.push(entry_at(entries, Way::Call(number)))?;
    }
    Ok(table)
}

// What they raise by traps, by their exit reasons.
#[tactic(auto, unfolding(crate::specs::ByIndex::event_table_of))]
fn traps(alloc: Global, entries: &[EventEntry]) -> Result<Seq<Option<EventPart>>, NoMemory>
    requires { ReachFew entries.now }
    ensures { IfOk result (λ table. table ≡ event_table_of entries.now Trap) }
{
    let mut table = Seq::new(alloc);
    for reason in 0..MOST_CALLS as u8 {
        table.push(entry_at(entries, Way::Trap(reason)))?;
    }
    Ok(table)
}

// The tables of a subject with these grants.
fn tables_of(alloc: Global, grants: &Grants) -> Result<EventTables, NoMemory>
    requires { ReachFew grants.now.events }
    ensures { IfOk result (λ tables. tables ≡ event_tables_of grants.now) }
{
    Ok(EventTables {
        calls: calls(alloc, grants.events.items())?,
        traps: traps(alloc, grants.events.items())?,
    })
}

fn all_tables(alloc: Global, grants: &[Grants]) -> Result<Seq<EventTables>, NoMemory>
    requires { All (λ g. ReachFew g.events) grants.now }
    ensures { IfOk result (λ tables. tables ≡ map event_tables_of grants.now) }
{
    let mut tables = Seq::new(alloc);
    for granted in grants {
        tables.push(tables_of(alloc, granted)?)?;
    }
    Ok(tables)
}

/// For each subject, in their order, what its calls and its traps raise, each by its number.
///
/// Answers `NoMemory` where memory was refused.
pub fn tables(alloc: Global, expanded: &Expanded) -> Result<Seq<EventTables>, NoMemory>
    ensures { IfOk result (AllZip (AreTables expanded.now.lawful) expanded.now.lawful.subjects) }
{
    // A target that is named is one of the subjects, since no name is empty.
    all_tables(alloc, expanded.grants())
}
