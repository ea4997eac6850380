// Rule 8: what one subject may write, no other maps, but for regions that are shared.
ghost use Rattle.std.specs.Prelude.{◌≡◌, ℕ, ◌<◌, ◌==◌, ◌++◌, [], length, map, not, option_copied, option_map, replicate, slice_index_or, IfOk, OnOk};
ghost use Rattle.std.specs.List.{enumerate_from, filter_map, find};
ghost use Rattle.muen_num.specs.Search.{first_after, first_in};
ghost use Rattle.policy_lawful.specs.Resolution.{IsResolved, source_of};
ghost use Rattle.std.specs.Str.{bytes_eq};
ghost use Rattle.policy_lawful.specs.Offences.{two};
ghost use Rattle.policy_lawful.specs.Rules.{offence_8};
ghost use Rattle.policy_rules.specs.Names.{HasAll};
ghost use Rattle.policy_rules.specs.Writers.{HasUsers, with_user_if, region_users_fault, not_shared, other_among, sharing_fault, stranger_among, user_of, users_fault, with_user};

use muen_num::{AccessKind, Name, NoMemory, Seq};
use policy_lawful::source::Region;
use policy_lawful::{NameHash, NameSet, Offence, Shown, View};
use policy_views::Linked;
use std::alloc::{AllocError, Global};

// A subject that has a window on a region, and whether it may write by that.
#[derive(Clone, Copy)]
struct User {
    name: Name,
    writes: bool,
}

// ---- users of each region

// Notes a user at a region's index, where that is there.
fn note(users: &mut [Seq<User>], index: usize, user: User) -> Result<(), NoMemory>
    ensures { OnOk result ((k : ℕ) → k < length users.old → slice_index_or users.new k [] ≡ with_user_if (slice_index_or users.old k []) (index == k) user) }
{
    if index < users.len() {
        users[index].push(user)?;
    }
    Ok(())
}

// Notes the subject of this name at the region that it has this window on, if it is on one.
#[tactic(auto, using(crate::proofs::WritersByIndex::added_is))]
fn note_view(users: &mut [Seq<User>], name: Name, view: &View) -> Result<(), NoMemory>
    ensures { OnOk result ((k : ℕ) → k < length users.old → slice_index_or users.new k [] ≡ with_user (slice_index_or users.old k []) (user_of k name view.now)) }
{
    match view.shows {
        Shown::Memory(index) => {
            let writes = view.rights.allows(AccessKind::Write);
            note(users, index, User { name, writes })
        }
        _ => Ok(()),
    }
}

// Notes the subject of this name at each region that it has one of these windows on.
#[tactic(auto, using(crate::proofs::WritersByIndex::views_more))]
fn note_views(users: &mut [Seq<User>], name: Name, views: &[View]) -> Result<(), NoMemory>
    ensures { OnOk result ((k : ℕ) → k < length users.old → slice_index_or users.new k [] ≡ slice_index_or users.old k [] ++ filter_map (user_of k name) views.now) }
{
    for view in views {
        note_view(users, name, view)?;
    }
    Ok(())
}

// Notes the subject of this name at each region that it has a window on: those on what its component
// provides are on none.
fn note_subject(
    users: &mut [Seq<User>],
    name: Name,
    front: &[View],
    behind: &[View],
) -> Result<(), NoMemory>
    ensures { OnOk result ((k : ℕ) → k < length users.old → slice_index_or users.new k [] ≡ slice_index_or users.old k [] ++ filter_map (user_of k name) front.now ++ filter_map (user_of k name) behind.now) }
{
    note_views(users, name, front)?;
    note_views(users, name, behind)
}

// So many lists with no users.
fn no_users(alloc: Global, regions: usize) -> Result<Vec<Seq<User>>, NoMemory>
    ensures { IfOk result (λ v. v.items ≡ replicate regions []) }
{
    let mut users = Vec::new(alloc);
    for _ in 0..regions {
        users.push(Seq::new(alloc))?;
    }
    Ok(users)
}

// The users of each region.
#[tactic(auto, using(crate::proofs::WritersByIndex::none_yet))]
fn users_of(alloc: Global, policy: &Linked) -> Result<Vec<Seq<User>>, NoMemory>
    ensures users { IfOk result (λ v. HasUsers policy.now v.items policy.now.subjects) }
    ensures resolved { IsResolved policy.now }
{
    let mut users = no_users(alloc, policy.memory().len())?;
    for (index, subject) in policy.subjects().iter().enumerate() {
        let (front, behind) = (policy.front(index), policy.behind(index));
        note_subject(&mut users, subject.name, front, behind)?;
    }
    Ok(users)
}

// ---- one region

// The first user that isn't the writer.
fn other_than(users: &[User], region: &Name, writer: &User) -> Option<Offence>
    ensures { result ≡ option_map (λ u. two region.now u.name) (find (λ u. not (bytes_eq u.name writer.now.name)) users.now) }
{
    let other = users.iter().find(|user| user.name != writer.name)?;
    Some(Offence {
        first: *region,
        second: other.name,
    })
}

// The first user that may write.
fn writer<'a>(users: &'a [User]) -> Option<&'a User>
    ensures { option_copied result ≡ find (λ u. u.writes) users.now }
{
    users.iter().find(|user| user.writes)
}

// The first user other than the first that may write, if one may.
fn other(users: &[User], region: &Name) -> Option<Offence>
    ensures { result ≡ other_among users.now region.now (find (λ u. u.writes) users.now) }
{
    let writer = writer(users)?;
    other_than(users, region, writer)
}

// The names of a list, each once.
#[tactic(auto, using(crate::proofs::NamesAdded::all_more))]
fn set_of(alloc: Global, names: &[Name]) -> Result<NameSet, NoMemory>
    ensures { IfOk result (λ all. HasAll all names.now) }
{
    let mut all = NameSet::new(alloc, NameHash::behind(names));
    for name in names {
        all.add(*name)?;
    }
    Ok(all)
}

// The first user that isn't among these names.
fn stranger(names: &NameSet, region: &Name, users: &[User]) -> Option<Offence>
    ensures { result ≡ stranger_among names.now region.now users.now }
{
    let user = users.iter().find(|user| !names.contains(&user.name))?;
    Some(Offence {
        first: *region,
        second: user.name,
    })
}

// The first name of a region's list that stood before, or that isn't among these names.
fn first_not_shared(
    alloc: Global,
    names: &NameSet,
    region: &Name,
    list: &[Name],
) -> Result<Option<Offence>, NoMemory>
    ensures { IfOk result (λ o. o ≡ first_after (not_shared names.now region.now) [] list.now) }
{
    let mut before = NameSet::new(alloc, NameHash::behind(list));
    for name in list {
        let is_new = before.add(*name)?;
        if !(is_new && names.contains(name)) {
            return Ok(Some(Offence {
                first: *region,
                second: *name,
            }));
        }
    }
    Ok(None)
}

fn names_of(alloc: Global, users: &[User]) -> Result<Vec<Name>, AllocError>
    ensures { IfOk result (λ v. v.items ≡ map (λ u. u.name) users.now) }
{
    users.iter().map(|user| user.name).collect(alloc)
}

// What is wrong with a region that has a list: a user that isn't in it, or a name in it.
#[tactic(auto, using(crate::proofs::WritersByIndex::shared_first, crate::proofs::WritersByIndex::shared_last))]
fn of_shared(alloc: Global, region: &Region, users: &[User]) -> Result<Option<Offence>, NoMemory>
    ensures { IfOk result (λ o. o ≡ sharing_fault users.now region.now) }
{
    let list = region.shared_memory.items();
    let listed = set_of(alloc, list)?;
    if let Some(offence) = stranger(&listed, &region.name, users) {
        return Ok(Some(offence));
    }
    let names = names_of(alloc, users)?;
    let using = set_of(alloc, &names)?;
    first_not_shared(alloc, &using, &region.name, list)
}

// What is wrong with a region, by its users.
fn of_region(alloc: Global, region: &Region, users: &[User]) -> Result<Option<Offence>, NoMemory>
    ensures { IfOk result (λ o. o ≡ users_fault users.now region.now) }
{
    if region.shared_memory.is_empty() {
        return Ok(other(users, &region.name));
    }
    of_shared(alloc, region, users)
}

// ---- all regions

// The first region with which something is wrong, where its users stand at its index.
fn of_regions(
    alloc: Global,
    regions: &[Region],
    users: &[Seq<User>],
) -> Result<Option<Offence>, NoMemory>
    requires { length users.now ≡ length regions.now }
    ensures { IfOk result (λ o. o ≡ first_in (region_users_fault users.now) (enumerate_from 0 regions.now)) }
{
    for (index, region) in regions.iter().enumerate() {
        if let Some(offence) = of_region(alloc, region, users[index].items())? {
            return Ok(Some(offence));
        }
    }
    Ok(None)
}

/// Rule 8: the first region that isn't shared, that one subject may write and another maps, with the
/// first of these others; or that is shared, and is mapped by a subject that its list doesn't name,
/// or whose list has a name twice or one of no subject that maps it.
///
/// Answers `NoMemory` where memory was refused.
#[tactic(auto, using(crate::proofs::WritersByIndex::writers_by_index))]
pub fn writers(alloc: Global, policy: &Linked) -> Result<Option<Offence>, NoMemory>
    ensures { IfOk result (λ o. o ≡ offence_8 (source_of policy.now)) }
{
    let users = users_of(alloc, policy)?;
    of_regions(alloc, policy.memory(), &users)
}
