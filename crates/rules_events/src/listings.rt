//! The scheduling groups that list each subject.
ghost use Rattle.std.specs.Prelude.{◌≡◌, ℕ, List, ◌++◌, [], slice_index_or, IfOk, IfSome};
ghost use Rattle.rules_channels.specs.ByIndex.{AreItems};
ghost use Rattle.rules_events.specs.Listings.{AreKnownPairs, HaveRising, Rises, memberships, all_memberships};
ghost use Rattle.muen_num.specs.Numbers.{is_among, share};

use muen_num::{NoMemory, Seq};
use policy_lawful::resolved::Group;
use rules_channels::by_index::{at, by_index};
use std::alloc::Global;
use std::marker::Model;

// A search for an index takes about as long as so many steps over both lists.
const MUCH: usize = 16;

/// Whether some group lists both of two subjects.
#[derive(Clone, Copy)]
struct Shared {
    one: usize,
    other: usize,
    shares: bool,
}

/// For each subject the indexes of the groups that list it, which rise. What was found out of pairs of
/// subjects is kept with them: subjects may be listed by many groups, and met by many events.
#[derive(Drop)]
pub(crate) struct Listings {
    lists: Vec<Seq<usize>>,
    // In the order of the pairs.
    known: Vec<Shared>,
}

impl Model for Listings {
    ghost use Rattle.std.specs.Prelude.{List, ℕ};
    ghost use Rattle.rules_events.specs.Listings.{AreKnownPairs, HaveRising};

    ghost Value = { List (List ℕ) };

    ghost view = { λ x. x.lists.items };

    ghost invariant = { λ x. HaveRising x.lists.items × AreKnownPairs x.lists.items x.known.items };
}

// Notes a group at each of its members.
fn note_members(
    noted: &mut Vec<(usize, usize)>,
    index: usize,
    group: &Group,
) -> Result<(), NoMemory>
    ensures { IfOk result (λ _. noted.new.items ≡ noted.old.items ++ memberships (index, group.now)) }
{
    for member in group.subjects.items() {
        noted.push((*member, index))?;
    }
    Ok(())
}

fn all_memberships(alloc: Global, groups: &[Group]) -> Result<Vec<(usize, usize)>, NoMemory>
    ensures { IfOk result (λ v. v.items ≡ all_memberships groups.now) }
{
    let mut noted = Vec::new(alloc);
    for (index, group) in groups.iter().enumerate() {
        note_members(&mut noted, index, group)?;
    }
    Ok(noted)
}

// Whether an index stands in a list that rises.
#[tactic(auto, using(crate::proofs::Rising::stands))]
fn is_among(indexes: &[usize], index: usize) -> bool
    requires { Rises indexes.now }
    ensures { result ≡ is_among indexes.now index }
{
    indexes.binary_search(&index).is_ok()
}

// Whether some index stands in both lists, of which the second rises.
fn share(one: &[usize], other: &[usize]) -> bool
    requires { Rises other.now }
    ensures { result ≡ share one.now other.now }
{
    for index in one {
        if is_among(other, *index) {
            return true;
        }
    }
    false
}

// The same of two lists that rise: the lesser of two indexes is passed.
#[tactic(auto, using(crate::proofs::Merged::one_passed, crate::proofs::Merged::other_passed, crate::proofs::Merged::first_shared, crate::proofs::Merged::one_ends, crate::proofs::Merged::other_ends))]
fn share_merged(one: &[usize], other: &[usize]) -> bool
    requires one { Rises one.now }
    requires other { Rises other.now }
    ensures { result ≡ share one.now other.now }
{
    let mut i = 0;
    let mut j = 0;
    while i < one.len() && j < other.len() {
        if one[i] == other[j] {
            return true;
        }
        if one[i] < other[j] {
            i += 1;
        } else {
            j += 1;
        }
    }
    false
}

// Whether some index stands in both lists, which rise. The indexes of a much shorter one are searched
// for.
#[tactic(auto, using(crate::proofs::Shares::share_turned))]
fn share_rising(one: &[usize], other: &[usize]) -> bool
    requires one { Rises one.now }
    requires other { Rises other.now }
    ensures { result ≡ share one.now other.now }
{
    if one.len() < other.len() / MUCH {
        share(one, other)
    } else if other.len() < one.len() / MUCH {
        share(other, one)
    } else {
        share_merged(one, other)
    }
}

// Whether some group lists both subjects.
fn share_at(lists: &[Seq<usize>], one: usize, other: usize) -> bool
    requires { HaveRising lists.now }
    ensures { result ≡ share (slice_index_or lists.now one []) (slice_index_or lists.now other []) }
{
    share_rising(at(lists, one), at(lists, other))
}

// The same of each of these pairs.
fn find_out(
    alloc: Global,
    lists: &[Seq<usize>],
    pairs: &[(usize, usize)],
) -> Result<Vec<Shared>, NoMemory>
    requires { HaveRising lists.now }
    ensures { IfOk result (λ v. AreKnownPairs lists.now v.items) }
{
    let mut known = Vec::new(alloc);
    for pair in pairs {
        let (one, other) = *pair;
        known.push(Shared {
            one,
            other,
            shares: share_at(lists, one, other),
        })?;
    }
    Ok(known)
}

// What is known of a pair, if it is.
fn find_known(known: &[Shared], one: usize, other: usize) -> Option<bool>
    ensures { IfSome result (λ b. (lists : List (List ℕ)) → AreKnownPairs lists known.now → b ≡ share (slice_index_or lists one []) (slice_index_or lists other [])) }
{
    let pair = (one, other);
    match known.binary_search_by_key(&pair, |shared| (shared.one, shared.other)) {
        Ok(index) => {
            let shared = known[index];
            if shared.one == one && shared.other == other {
                Some(shared.shares)
            } else {
                None
            }
        }
        Err(_) => None,
    }
}

impl Listings {
    /// The groups that list each of so many subjects.
    ///
    /// Answers `NoMemory` where memory was refused.
    pub(crate) fn of(alloc: Global, groups: &[Group], subjects: usize) -> Result<Listings, NoMemory>
        ensures { IfOk result (λ v. AreItems v subjects (all_memberships groups.now)) }
    {
        let noted = all_memberships(alloc, groups)?;
        let lists = by_index(alloc, &noted, subjects)?;
        Ok(Listings {
            lists,
            known: Vec::new(alloc),
        })
    }

    /// Whether some group lists both subjects.
    pub(crate) fn share(&self, one: usize, other: usize) -> bool
        ensures { result ≡ share (slice_index_or self.now one []) (slice_index_or self.now other []) }
    {
        match find_known(&self.known, one, other) {
            Some(shares) => shares,
            None => share_at(&self.lists, one, other),
        }
    }

    /// Finds out of each of these pairs of subjects whether some group lists both, so that it needn't
    /// be found out again each time.
    ///
    /// Answers `NoMemory` where memory was refused.
    pub(crate) fn find_out(
        &mut self,
        alloc: Global,
        mut pairs: Vec<(usize, usize)>,
    ) -> Result<(), NoMemory>
        ensures { self.new ≡ self.old }
    {
        pairs.sort_unstable();
        pairs.dedup();
        self.known = find_out(alloc, &self.lists, &pairs)?;
        Ok(())
    }
}
