// Rule 16, its end: the subject that chooses the major frames, and the region by which it does.
ghost use Rattle.std.specs.Prelude.{◌≡◌, ◌&&◌, ◌==◌};
ghost use Rattle.std.specs.List.{list_any};
ghost use Rattle.std.specs.Str.{bytes_eq};
ghost use Rattle.policy_lawful.specs.Resolution.{source_of};
ghost use Rattle.policy_lawful.specs.Rules.{tau0_offence};
ghost use Rattle.policy_rules.specs.Tau0.{chooser_offence, is_chooser, is_chooser_by, is_on_named, is_own_region, may_write};

use crate::keys::Key;
use muen_num::{AccessKind, Name};
use policy_lawful::resolved::Subject;
use policy_lawful::source::{Region, Tau0};
use policy_lawful::{Offence, Shown, View};
use policy_views::Linked;

// Whether it shows a region of this name.
fn is_on_named(name: Name, view: &View) -> bool
    ensures { result ≡ is_on_named name view.now view.now.shows }
{
    match view.shows {
        Shown::Memory(_) => view.name == name,
        _ => false,
    }
}

fn may_write(name: Name, views: &[View]) -> bool
    ensures { result ≡ list_any (may_write name) views.now }
{
    views.iter().any(|view| is_on_named(name, view) && view.rights.allows(AccessKind::Write))
}

// Whether this subject is the one that chooses, and may write the region by one of these windows: those
// on what its component provides are on no region.
fn is_chooser(chooser: &Tau0, subject: &Subject, front: &[View], behind: &[View]) -> bool
    ensures { result ≡ is_chooser_by chooser.now front.now behind.now subject.now }
{
    subject.name == chooser.subject
        && (may_write(chooser.region, front) || may_write(chooser.region, behind))
}

fn some_chooser(policy: &Linked, chooser: &Tau0) -> bool
    ensures { result ≡ list_any (is_chooser policy.now chooser.now) policy.now.subjects }
{
    for (index, subject) in policy.subjects().iter().enumerate() {
        if is_chooser(chooser, subject, policy.front(index), policy.behind(index)) {
            return true;
        }
    }
    false
}

fn is_declared(subjects: &[Subject], name: Name) -> bool
    ensures { result ≡ list_any (λ s. bytes_eq s.name name) subjects.now }
{
    subjects.iter().any(|subject| subject.name == name)
}

fn has_own_region(memory: &[Region], name: Name) -> bool
    ensures { result ≡ list_any (is_own_region name) memory.now }
{
    memory.iter().any(|region| region.name == name && region.shared_memory.is_empty())
}

fn of_chooser(policy: &Linked, chooser: &Tau0) -> Option<Offence>
    ensures { result ≡ chooser_offence policy.now chooser.now }
{
    if !is_declared(policy.subjects(), chooser.subject) {
        return Some(Key::Tau0.with(chooser.subject));
    }
    if !has_own_region(policy.memory(), chooser.region) {
        return Some(Key::Tau0.with(chooser.region));
    }
    let may = some_chooser(policy, chooser);
    Key::Tau0.with(chooser.region).unless(may)
}

/// The offence of the subject that chooses the major frames, if one does: it isn't declared, or its
/// region isn't or is shared, or it may not write that.
#[tactic(auto, using(crate::proofs::Tau0ByIndex::chooser_by_index, crate::proofs::Tau0ByIndex::no_chooser))]
pub(crate) fn tau0(policy: &Linked) -> Option<Offence>
    ensures { result ≡ tau0_offence (source_of policy.now) policy.now.scheduling.tau0 }
{
    match &policy.scheduling().tau0 {
        None => None,
        Some(chooser) => of_chooser(policy, chooser),
    }
}
