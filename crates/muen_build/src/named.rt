//! Which files the contents of a policy name.
ghost use Rattle.std.specs.Prelude.{◌≡◌};
ghost use Rattle.std.specs.List.{list_any};
ghost use Rattle.muen_build.specs.Accepting.{thing_names};
ghost use Rattle.muen_build.specs.Looks.{names_file};
ghost use Rattle.policy_lawful.specs.Resolution.{source_of};

use policy_lawful::source::Content;
use policy_lawful::{Lawful, Resolved, Thing};

// Whether the content of a thing is of the file of this name.
fn thing_names(policy: &Resolved, thing: &Thing, file: &str) -> bool
    ensures { result ≡ thing_names policy.now thing.now file.now }
{
    match policy.content(thing.content) {
        Some(Content::File { name, .. }) => name.as_str() == file,
        None | Some(Content::Zero | Content::Fill(_) | Content::Inline(_)) => false,
    }
}

// Whether that of one of these things is.
fn any_names(policy: &Resolved, things: &[Thing], file: &str) -> bool
    ensures { result ≡ list_any (λ t. thing_names policy.now t file.now) things.now }
{
    things.iter().any(|thing| thing_names(policy, thing, file))
}

/// Whether a content of the policy is of the file of this name.
pub fn names_file(policy: &Lawful, file: &str) -> bool
    ensures { result ≡ names_file (source_of policy.now) file.now }
{
    let policy = policy.resolved();
    any_names(policy, policy.things(), file)
}
