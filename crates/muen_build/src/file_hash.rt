//! How the names of component files are hashed.
ghost use Rattle.std.specs.Prelude.{◌≡◌, List, ℕ, ◌++◌};
ghost use Rattle.muen_build.specs.Accepting.{thing_content};
ghost use Rattle.muen_build.specs.FileNames.{content_file_of, named_files};
ghost use Rattle.policy_lawful.specs.NameHashes.{AreDigested, hasher_behind};
ghost use Rattle.policy_lawful.specs.Resolution.{source_of};

use policy_lawful::source::Content;
use policy_lawful::{NameDigest, NameHash, Resolved, Thing};

// Adds the name of the file that a thing's content is of, if it is of one.
#[tactic(auto, using(crate::proofs::FilesDigested::none_more))]
fn add_file(digest: &mut NameDigest, policy: &Resolved, thing: &Thing)
    ensures { (names : List (List ℕ)) → AreDigested digest.old names → AreDigested digest.new (names ++ content_file_of (thing_content policy.now thing.now)) }
{
    if let Some(Content::File { name, .. }) = policy.content(thing.content) {
        digest.add(*name);
    }
}

/// Hashes of names behind the digest of those of all files that contents of the policy name.
pub(crate) fn hash_of_files(policy: &Resolved) -> NameHash
    ensures { result.start ≡ hasher_behind (named_files (source_of policy.now)) }
{
    let mut digest = NameDigest::new();
    for thing in policy.things() {
        add_file(&mut digest, policy, thing);
    }
    digest.hash()
}
