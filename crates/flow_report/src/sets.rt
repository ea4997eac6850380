//! The closed sets of subjects.
ghost use Rattle.std.specs.Prelude.{◌≡◌, map, IfOk};
ghost use Rattle.policy_lawful.specs.Resolution.{source_of};
ghost use Rattle.flow_report.specs.ByIndex.{flows_between, rows_of};
ghost use Rattle.flow_report.specs.Marks.{after_rounds, alone_marked, round, sets_after, have_common_mark};
ghost use Rattle.flow_report.specs.Sets.{AreApart, AreFlows, AreLeastClosed, HaveMarksOf, direct_flows_of};

use crate::contacts::{Contacts, all_contacts, flows_between};
use muen_num::{NoMemory, Seq};
use policy_lawful::Lawful;
use std::alloc::{AllocError, Global};
use std::marker::Model;

/// For each subject, by index, the set of those that can reach it; a set marks the indexes of its
/// members. Contracts see the list of these marks.
#[derive(Debug, Drop)]
pub struct FlowSets {
    sets: Seq<Seq<bool>>,
}

impl Model for FlowSets {
    ghost use Rattle.std.specs.Prelude.{Bool, List};

    ghost Value = { List (List Bool) };

    ghost view = { λ f. f.sets };
}

impl FlowSets {
    /// The sets of these marks.
    pub fn of(sets: Seq<Seq<bool>>) -> FlowSets
        ensures { result ≡ sets }
    {
        FlowSets { sets }
    }

    /// The sets of marks.
    pub fn sets(&self) -> &[Seq<bool>]
        ensures { result.now ≡ self.now }
    {
        self.sets.items()
    }
}

// The subjects to which this one flows directly, among all.
fn row(alloc: Global, from: &Contacts, all_contacts: &[Contacts]) -> Result<Vec<bool>, AllocError>
    ensures { IfOk result (λ v. v.items ≡ map (flows_between from.now) all_contacts.now) }
{
    all_contacts
        .iter()
        .map(|to| flows_between(from, to))
        .collect(alloc)
}

fn rows(alloc: Global, all_contacts: &[Contacts]) -> Result<Vec<Seq<bool>>, NoMemory>
    ensures { IfOk result (λ v. v.items ≡ rows_of all_contacts.now) }
{
    let mut rows = Vec::new(alloc);
    for contacts in all_contacts {
        rows.push(Seq::of(row(alloc, contacts, all_contacts)?))?;
    }
    Ok(rows)
}

// Whether some index is marked in both.
fn touches(marks: &[bool], row: &[bool]) -> bool
    ensures { result ≡ have_common_mark marks.now row.now }
{
    marks.iter().zip(row).any(|(mark, flows)| *mark && *flows)
}

// The marks, and those whose rows touch them.
fn round(alloc: Global, rows: &[Seq<bool>], marks: &[bool]) -> Result<Vec<bool>, AllocError>
    ensures { IfOk result (λ v. v.items ≡ round rows.now marks.now) }
{
    marks
        .iter()
        .zip(rows)
        .map(|(mark, row)| *mark || touches(marks, row.items()))
        .collect(alloc)
}

// One index alone.
fn alone_marked(
    alloc: Global,
    all_contacts: &[Contacts],
    index: usize,
) -> Result<Vec<bool>, AllocError>
    ensures { IfOk result (λ v. v.items ≡ alone_marked all_contacts.now index) }
{
    all_contacts
        .iter()
        .map(|contacts| contacts.index == index)
        .collect(alloc)
}

/// The marks after so many rounds: those of the start, and in each round those whose rows touch them.
///
/// Answers `NoMemory` where memory was refused.
#[tactic(auto, using(crate::proofs::Rounds::by_rounds))]
pub fn marks_after(
    alloc: Global,
    rows: &[Seq<bool>],
    start: Vec<bool>,
    rounds: usize,
) -> Result<Vec<bool>, NoMemory>
    ensures { IfOk result (λ v. v.items ≡ after_rounds rows.now start.items rounds) }
{
    let mut marks = start;
    for _ in 0..rounds {
        marks = round(alloc, rows, &marks)?;
    }
    Ok(marks)
}

// For each subject the set of those that reach it over so many flows at most.
fn sets_after(
    alloc: Global,
    all_contacts: &[Contacts],
    rounds: usize,
) -> Result<Seq<Seq<bool>>, NoMemory>
    ensures { IfOk result (λ s. s ≡ sets_after all_contacts.now rounds) }
{
    let rows = rows(alloc, all_contacts)?;
    let mut sets = Seq::new(alloc);
    for contacts in all_contacts {
        let alone = alone_marked(alloc, all_contacts, contacts.index)?;
        sets.push(Seq::of(marks_after(alloc, &rows, alone, rounds)?))?;
    }
    Ok(sets)
}

/// For each subject, by index, the marks of those to which it flows directly.
///
/// Answers `NoMemory` where memory was refused.
pub fn direct_flows(alloc: Global, policy: &Lawful) -> Result<Vec<Seq<bool>>, NoMemory>
    ensures { IfOk result (λ v. v.items ≡ direct_flows_of (source_of policy.now)) }
{
    let all_contacts = all_contacts(alloc, policy.resolved())?;
    let rows = rows(alloc, &all_contacts)?;
    Ok(rows)
}

/// For each subject all that can reach it: itself, and the direct sources of those that do, by
/// channels, shared memory, events, monitors, and the choice of major frames.
///
/// These members are enough. Take any second policy that keeps the rules and in which the set is closed,
/// and any files and records that the two have, where they agree on what reaches the members (`Agree` of
/// `proof_isolation`): then each member has the same view in both at every tick below both ends. So it is
/// whatever the programs, contents, devices and plans of all others are in either.
///
/// Answers `NoMemory` where memory was refused.
pub fn flows(alloc: Global, policy: &Lawful) -> Result<FlowSets, NoMemory>
    ensures sets { IfOk result (AreFlows (source_of policy.now)) }
    ensures marks { IfOk result (HaveMarksOf (source_of policy.now)) }
    ensures least { IfOk result (AreLeastClosed (source_of policy.now)) }
    // And nothing else reaches the members of these sets.
    ensures apart { IfOk result (AreApart (source_of policy.now)) }
{
    let all_contacts = all_contacts(alloc, policy.resolved())?;
    let sets = sets_after(alloc, &all_contacts, all_contacts.len())?;
    Ok(FlowSets { sets })
}
