//! A subject's windows by guest address, with the numbers of what they show.
ghost use Rattle.std.specs.Prelude.{◌≡◌, map, position, All, IfOk};
ghost use Rattle.std.specs.List.{IsDistinct, position_or_len};
ghost use Rattle.std.specs.List.Sorted.{IsNonDecreasingBy, IsPermutation};
ghost use Rattle.expand_grants.specs.Kept.{is_lower_view, same_guest};
ghost use Rattle.expand_grants.specs.Numbered.{IsNamed, numbered_view, is_called};
ghost use Rattle.expand_grants.specs.Ordered.{in_order};
ghost use Rattle.policy_lawful.specs.Resolution.{source_of};
ghost use Rattle.policy_lawful.specs.Things.{thing_index};
ghost use Rattle.policy_lawful.specs.Views.{thing_shown};

use crate::granted::GrantedWindow;
use muen_num::{Name, NoMemory, Seq, Tag, TagPart};
use policy_lawful::thing::RegionKind;
use policy_lawful::{Resolved, Shown, Thing, ThingIndex, View};
use std::alloc::Global;

// ---- the numbers of things

fn is_called(thing: &Thing, kind: RegionKind, tag: &Tag) -> bool
    ensures { result ≡ is_called kind tag.now thing.now }
{
    thing.kind == kind && thing.tag == *tag
}

// The index of the first thing of this kind and this printed name.
fn index_of(things: &[Thing], kind: RegionKind, tag: &Tag) -> Option<usize>
    ensures { result ≡ position (is_called kind tag.now) things.now }
{
    things.iter().position(|thing| is_called(thing, kind, tag))
}

// Its number; how many things there are, where none is.
#[tactic(auto, using(policy_lawful::proofs::Positions::position_found, policy_lawful::proofs::Positions::position_none))]
fn number_of(things: &[Thing], kind: RegionKind, tag: Tag) -> usize
    ensures { result ≡ position_or_len (is_called kind tag) things.now }
{
    match index_of(things, kind, &tag) {
        Some(number) => number,
        None => things.len(),
    }
}

// The number of what a view of the subject of this name shows.
fn thing_of(policy: &Resolved, subject: Name, view: &View) -> ThingIndex
    requires { IsNamed policy.now view.now view.now.shows }
    ensures { result ≡ thing_index (source_of policy.now) (thing_shown policy.now subject view.now view.now.shows) }
{
    let things = policy.things();
    let (kind, owner, part) = match view.shows {
        Shown::Memory(_) => (RegionKind::Own, view.name, TagPart::Whole),
        Shown::Channel(_) => (RegionKind::Channel, view.name, TagPart::Whole),
        Shown::Provided(_) => (RegionKind::Provided, subject, TagPart::Named(view.name)),
        Shown::Device(device, _) => {
            let owner = policy.devices()[device].name;
            (RegionKind::Device, owner, TagPart::Named(view.name))
        }
        Shown::State(other) => return ThingIndex::State(other),
    };
    let tag = Tag { owner, part };
    ThingIndex::Declared(number_of(things, kind, tag))
}

// ---- windows

// These views, none at a lower guest address than one before it.
fn rising(alloc: Global, views: &[View]) -> Result<Vec<View>, NoMemory>
    ensures moved { IfOk result (λ v. IsPermutation views.now v.items) }
    ensures rising { IfOk result (λ v. IsNonDecreasingBy (λ x. x.guest) v.items) }
{
    let mut rising = views.to_vec(alloc)?;
    rising.sort_by_key(|view| view.guest)?;
    Ok(rising)
}

// Views, of which no two are at the same guest address, in the order of these addresses.
#[tactic(auto, using(crate::proofs::WindowsInOrder::sorted_is))]
fn in_order(alloc: Global, views: &[View]) -> Result<Vec<View>, NoMemory>
    requires { IsDistinct same_guest views.now }
    ensures { IfOk result (λ v. v.items ≡ in_order is_lower_view views.now) }
{
    rising(alloc, views)
}

// A view with the number of what it shows.
fn numbered(policy: &Resolved, subject: Name, view: &View) -> GrantedWindow
    requires { IsNamed policy.now view.now view.now.shows }
    ensures { result ≡ numbered_view policy.now subject view.now }
{
    GrantedWindow {
        guest: view.guest,
        size: view.size,
        rights: view.rights,
        thing: thing_of(policy, subject, view),
    }
}

fn all_numbered(
    alloc: Global,
    policy: &Resolved,
    subject: Name,
    views: &[View],
) -> Result<Vec<GrantedWindow>, NoMemory>
    requires { All (λ v. IsNamed policy.now v v.shows) views.now }
    ensures { IfOk result (λ v. v.items ≡ map (numbered_view policy.now subject) views.now) }
{
    let mut windows = Vec::new(alloc);
    for view in views {
        windows.push(numbered(policy, subject, view))?;
    }
    Ok(windows)
}

/// The windows of the subject of this name, which has these views, no two of them at the same guest
/// address: in the order of these addresses, with the numbers of what they show.
///
/// Answers `NoMemory` where memory was refused.
pub(crate) fn windows_of(
    alloc: Global,
    policy: &Resolved,
    subject: Name,
    views: &[View],
) -> Result<Seq<GrantedWindow>, NoMemory>
    requires guests { IsDistinct same_guest views.now }
    requires named { All (λ v. IsNamed policy.now v v.shows) views.now }
    ensures { IfOk result (λ windows. windows ≡ map (numbered_view policy.now subject) (in_order is_lower_view views.now)) }
{
    let views = in_order(alloc, views)?;
    Ok(Seq::of(all_numbered(alloc, policy, subject, &views)?))
}
