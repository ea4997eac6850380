//! The printed names of what windows show.
ghost use Rattle.std.specs.Prelude.{◌≡◌};
ghost use Rattle.expand_kernel.specs.Numbered.{shown_tag};

use muen_num::{Tag, TagPart};
use policy_lawful::{Resolved, ThingIndex};

/// The printed name of what has this number, if it is there.
pub(crate) fn tag(policy: &Resolved, thing: ThingIndex) -> Option<Tag>
    ensures { result ≡ shown_tag policy.now thing }
{
    match thing {
        ThingIndex::Declared(number) => Some(policy.things().get(number)?.tag),
        ThingIndex::State(subject) => {
            let owner = policy.subjects().get(subject)?.name;
            let part = TagPart::State;
            Some(Tag { owner, part })
        }
    }
}
