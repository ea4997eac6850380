//! All that a policy's document is refused for with its files: each rule that is broken, and of a
//! policy that keeps all of them each region whose contents are refused, and the first for which there
//! is no room.
#![tactic(auto)]

ghost use Rattle.std.specs.Prelude.{◌≡◌, ◌++◌, ℕ, List, [], IfErr, IfOk, OnOk, slice_get};
ghost use Rattle.std.specs.List.{cons_option};
ghost use Rattle.muen_build.specs.Refusals.{accepted_policy_of};
ghost use Rattle.muen_outside.specs.Store.{Store};
ghost use Rattle.policy_lawful.specs.Resolution.{source_of};
ghost use Rattle.policy_lint.specs.All.{all_refusals, refusal_in};
ghost use Rattle.policy_lint.specs.Linting.{Lints, LintFails};
ghost use Rattle.region_alloc.specs.Placement.{no_room};

mod contents;
mod error;
mod rules;
mod seen;

use crate::contents::refused_contents;
use crate::rules::rules;
pub use error::LintError;
use muen_build::{Given, place};
use muen_num::{NoMemory, Seq};
use muen_outside::Files;
use policy_lawful::{Lawful, Refusal};
use std::alloc::Global;

// Notes the refusal of the first region for which there is no room, if there is one.
fn note_room(alloc: Global, policy: Lawful, refusals: &mut Seq<Refusal>) -> Result<(), NoMemory>
    ensures { OnOk result (refusals.new ≡ refusals.old ++ cons_option (no_room (source_of policy)) []) }
{
    match place(alloc, policy) {
        Ok(_) => Ok(()),
        Err(Refusal::NoMemory) => Err(NoMemory),
        Err(refusal) => {
            refusals.push(refusal)?;
            Ok(())
        }
    }
}

/// All that the document is refused for, in the order in which building asks: that it is no JSON text
/// or breaks the schema; else the first rule on names that is broken; else all other rules that are;
/// else, by number, each region whose contents are refused, and the first for which there is no room.
/// None, where the policy is accepted. These bytes stand for the policy's name: where a content names
/// that, they are its file. Each other file is looked at once, where the first content names it, and
/// nothing else is.
///
/// # Errors
/// `FileFault` where the last look at files failed, `NoMemory` where memory was refused.
#[tactic(auto, using(crate::proofs::Linting::rules_lint, crate::proofs::Linting::rules_fail, crate::proofs::Linting::contents_lint, crate::proofs::Linting::contents_fail, crate::proofs::Linting::room_fails))]
pub fn lint<F: Files>(
    alloc: Global,
    name: &str,
    document: &[u8],
    files: &mut F,
) -> Result<Seq<Refusal>, LintError>
    ensures ok { IfOk result (Lints name.now document.now (F.held files.old) (F.history files.old) (F.history files.new)) }
    ensures err { IfErr result (LintFails name.now document.now (F.held files.old) (F.history files.old) (F.history files.new)) }
    ensures held { F.held files.new ≡ F.held files.old }
{
    let policy = match rules(alloc, document)? {
        Ok(policy) => policy,
        Err(refusals) => return Ok(refusals),
    };
    let given = [Given {
        name,
        bytes: document,
    }];
    let mut refusals = refused_contents(alloc, &given, &policy, files)?;
    note_room(alloc, policy, &mut refusals)?;
    Ok(refusals)
}

/// The first of all refusals of a document is the one for which it isn't accepted; there is none where
/// it is.
pub fn first_refuses()
    ensures { (files : Store) (document : List ℕ) → slice_get (all_refusals files document) 0 ≡ refusal_in (accepted_policy_of files document) }
{}
