// The windows of subjects, as named ranges of guest addresses.
ghost use Rattle.std.specs.Prelude.{◌≡◌, None, map, IfOk};
ghost use Rattle.muen_num.specs.Search.{first_in};
ghost use Rattle.rules_extents.specs.Windows.{component_ranges, outside, outside_in_subject};
ghost use Rattle.policy_lawful.specs.Views.{view_extent};

use crate::addresses::is_guest;
use muen_num::{Name, first, first_numbered};
use policy_lawful::{Extent, Offence, View};
use policy_views::Linked;
use std::alloc::{AllocError, Global};

// A view as a named range of guest addresses.
fn view_extent(view: &View) -> Extent
    ensures { result ≡ view_extent view.now }
{
    Extent {
        name: view.name,
        address: view.guest,
        size: view.size,
    }
}

/// Windows as ranges.
pub(crate) fn view_extents(alloc: Global, views: &[View]) -> Result<Vec<Extent>, AllocError>
    ensures { IfOk result (λ v. v.items ≡ map view_extent views.now) }
{
    views.iter().map(view_extent).collect(alloc)
}

// The first of these windows that isn't a range of guest addresses.
fn outside_among(by: &Name, views: &[View]) -> Option<Offence>
    ensures { result ≡ first_in (outside by.now) views.now }
{
    first(views, |view| {
        Offence {
            first: *by,
            second: view.name,
        }
        .unless(is_guest(view.guest, view.size))
    })
}

/// The first window of a subject that isn't a range of guest addresses. Those on what its component
/// provides are such, where the component keeps the rule.
pub(crate) fn outside(policy: &Linked) -> Option<Offence>
    requires { first_in component_ranges policy.now.components ≡ None }
    ensures { result ≡ first_in (outside_in_subject policy.now) policy.now.subjects }
{
    first_numbered(policy.subjects(), |index, subject| {
        outside_among(&subject.name, policy.front(index)).or_else(|| outside_among(
            &subject.name,
            policy.behind(index),
        ))
    })
}
