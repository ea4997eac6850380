//! Pending events, and active members.
ghost use Rattle.std.specs.Prelude.{◌≡◌, slice_get, map, Some, IfOk, option_map};
ghost use Rattle.muen_num.specs.ListChange.{change_at};
ghost use Rattle.event_router.specs.Vectors.{no_vectors, with_vector, without_vector};
ghost use Rattle.event_router.specs.Router.{started, pends, router_pends_now, with_active_member, raised, delivered_by, deliverable, taken};

use crate::vectors::{VectorSet, delivered};
use image_pack::{EventPart, GroupPart, SubjectPart};
use muen_num::{EventMode, NoMemory};
use std::alloc::{AllocError, Global};
use std::marker::Model;

/// Which vectors are pending for each subject, and who is active in each scheduling group. Subjects
/// and groups are named by their numbers.
#[derive(Debug, Drop)]
pub struct Router {
    pending_now: Vec<VectorSet>,
    pending_later: Vec<VectorSet>,
    groups: Vec<u8>,
    active: Vec<u8>,
}

impl Model for Router {
    ghost use Rattle.std.specs.Prelude.{map};
    ghost use Rattle.event_router.specs.Router.{RouterState};

    ghost Value = { RouterState };

    ghost view = { λ r. record { pending_now = map (λ s. s.marks) r.pending_now.items; pending_later = map (λ s. s.marks) r.pending_later.items; groups = r.groups.items; active = r.active.items } };
}

// An empty set for each subject.
fn empty_sets(alloc: Global, subjects: &[SubjectPart]) -> Result<Vec<VectorSet>, AllocError>
    ensures { IfOk result (λ v. map (λ s. s.marks) v.items ≡ map (λ s. no_vectors) subjects.now) }
{
    subjects.iter().map(|_| VectorSet::new()).collect(alloc)
}

// Puts a vector into a subject's set.
fn put(sets: &mut [VectorSet], subject: usize, vector: u8)
    ensures { map (λ s. s.marks) sets.new ≡ change_at subject (with_vector vector) (map (λ s. s.marks) sets.old) }
{
    if subject < sets.len() {
        sets[subject] = sets[subject].with(vector);
    }
}

// Takes a vector out of a subject's set.
fn take(sets: &mut [VectorSet], subject: usize, vector: u8)
    ensures { map (λ s. s.marks) sets.new ≡ change_at subject (without_vector vector) (map (λ s. s.marks) sets.old) }
{
    if subject < sets.len() {
        sets[subject] = sets[subject].without(vector);
    }
}

// Puts a vector, if there is one, into a subject's set.
fn pend(sets: &mut [VectorSet], subject: usize, vector: Option<u8>)
    ensures { map (λ s. s.marks) sets.new ≡ pends vector subject (map (λ s. s.marks) sets.old) }
{
    if let Some(vector) = vector {
        put(sets, subject, vector);
    }
}

// A subject becomes the active member of a group.
#[tactic(auto, using(muen_num::proofs::ChangeLaws::set_is, muen_num::proofs::ChangeLaws::past_is))]
fn activate(active: &mut [u8], group: usize, subject: u8)
    ensures { active.new ≡ change_at group (λ _. subject) active.old }
{
    if group < active.len() {
        active[group] = subject;
    }
}

fn hand_over(active: &mut [u8], groups: &[u8], subject: u8)
    ensures { active.new ≡ with_active_member (slice_get groups.now subject) subject active.old }
{
    if let Some(group) = groups.get(subject as usize) {
        activate(active, *group as usize, subject);
    }
}

// The set of a subject.
fn set_of(sets: &[VectorSet], subject: usize) -> Option<&VectorSet>
    ensures { option_map (λ s. s.now.marks) result ≡ slice_get (map (λ s. s.marks) sets.now) subject }
{
    sets.get(subject)
}

impl Router {
    /// Nothing is pending, and the first member of each group is active.
    ///
    /// # Errors
    /// Memory is refused.
    pub fn start(
        alloc: Global,
        subjects: &[SubjectPart],
        groups: &[GroupPart],
    ) -> Result<Router, NoMemory>
        ensures { IfOk result (λ r. r ≡ started subjects.now groups.now) }
    {
        Ok(Router {
            pending_now: empty_sets(alloc, subjects)?,
            pending_later: empty_sets(alloc, subjects)?,
            groups: subjects.iter().map(|s| s.group).collect(alloc)?,
            active: groups.iter().map(|g| g.first).collect(alloc)?,
        })
    }

    /// An event is raised: its vector is pending at its target, and with the mode `Switch` the target
    /// becomes the active member of its group.
    pub fn raise(&mut self, event: &EventPart)
        ensures { self.new ≡ raised event.now self.old }
    {
        let target = event.target as usize;
        match event.mode {
            EventMode::Asap | EventMode::Own => pend(&mut self.pending_now, target, event.vector),
            EventMode::Async => pend(&mut self.pending_later, target, event.vector),
            EventMode::Switch => {
                pend(&mut self.pending_now, target, event.vector);
                hand_over(&mut self.active, &self.groups, event.target);
            }
        }
    }

    /// An interrupt of a device is raised: its vector is pending at the subject, deliverable at any
    /// turn.
    pub fn raise_irq(&mut self, subject: u8, vector: u8)
        ensures { self.new ≡ router_pends_now subject (Some vector) self.old }
    {
        put(&mut self.pending_now, subject as usize, vector);
    }

    /// Delivers the greatest deliverable vector of a subject, which isn't pending afterwards. Those
    /// that wait are deliverable where `entry` holds. None where none is.
    pub fn deliver(&mut self, subject: u8, entry: bool) -> Option<u8>
        ensures vector { result ≡ deliverable self.old subject entry }
        ensures after { self.new ≡ taken subject (deliverable self.old subject entry) self.old }
    {
        let index = subject as usize;
        let vector = delivered_by(
            set_of(&self.pending_now, index),
            set_of(&self.pending_later, index),
            entry,
        )?;
        take(&mut self.pending_now, index, vector);
        take(&mut self.pending_later, index, vector);
        Some(vector)
    }

    /// The active member of a group. None where there is no such group.
    pub fn active(&self, group: u8) -> Option<u8>
        ensures { result ≡ slice_get self.now.active group }
    {
        self.active.get(group as usize).copied()
    }
}

// By the two sets of a subject.
fn delivered_by(now: Option<&VectorSet>, later: Option<&VectorSet>, entry: bool) -> Option<u8>
    ensures { result ≡ delivered_by (option_map (λ s. s.now.marks) now.entry) (option_map (λ s. s.now.marks) later.entry) entry }
{
    delivered(now?, later?, entry)
}
