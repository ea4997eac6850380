// What a document is refused for before its contents are asked.
ghost use Rattle.std.specs.Prelude.{◌≡◌, ◌≢◌, ◌∷◌, [], IfOk};
ghost use Rattle.policy_lawful.specs.refusal.Refusal.TheVariants.{NoMemory as OutOfMemory};
ghost use Rattle.policy_lint.specs.All.{lawful_or_all};
ghost use Rattle.rules_told.specs.Broken.{all_kept};

use muen_num::{NoMemory, Seq};
use policy_lawful::{Lawful, Refusal};
use std::alloc::Global;

// One refusal alone, which isn't that memory was refused.
fn alone(alloc: Global, refusal: Refusal) -> Result<Seq<Refusal>, NoMemory>
    ensures told { IfOk result (λ refusals. refusals ≡ refusal ∷ []) }
    ensures some { IfOk result (λ _. refusal ≢ OutOfMemory) }
{
    if let Refusal::NoMemory = refusal {
        return Err(NoMemory);
    }
    let mut refusals = Seq::new(alloc);
    refusals.push(refusal)?;
    Ok(refusals)
}

/// The policy of a document, where it keeps every rule. Else all that it is refused for: that it is no
/// JSON text, or the first place that breaks the schema; else the first offence against the least of
/// rules 1 and 2 that is broken; else the first against each other rule that is.
///
/// Answers `NoMemory` where memory was refused.
#[tactic(auto, using(crate::proofs::All::not_read, crate::proofs::All::not_resolved, crate::proofs::All::resolved_all))]
pub(crate) fn rules(
    alloc: Global,
    document: &[u8],
) -> Result<Result<Lawful, Seq<Refusal>>, NoMemory>
    ensures { IfOk result (λ told. all_kept told ≡ lawful_or_all document.now) }
{
    let source = match policy_json::read(alloc, document) {
        Ok(source) => source,
        Err(refusal) => return Ok(Err(alone(alloc, refusal)?)),
    };
    let linked = match policy_names::resolve(alloc, source) {
        Ok(linked) => linked,
        Err(refusal) => return Ok(Err(alone(alloc, refusal)?)),
    };
    rules_told::check_all(alloc, linked)
}
