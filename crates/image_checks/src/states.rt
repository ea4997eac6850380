//! The state with which each subject begins.
ghost use Rattle.std.specs.Prelude.{◌≡◌, IfOk, zip};
ghost use Rattle.image_checks.specs.Firsts.{Decides, IsFirstFailing};
ghost use Rattle.image_soundness.specs.Memory.{page_at};
ghost use Rattle.image_soundness.specs.Sound.{IsFresh};
ghost use Rattle.policy_lawful.specs.Resolution.{source_of};
ghost use Rattle.state_page.specs.StatePage.{page_bytes};
ghost use Rattle.state_page.specs.States.{started};

use crate::span_pages::page_at;
use expand_kernel::Expanded;
use image_pack::{Image, Parts, SubjectPart};
use muen_num::limits::PAGE;
use muen_num::{NoMemory, Seq};
use policy_lawful::resolved::Subject;
use state_page::SubjectState;
use std::alloc::Global;

// The state page with which a subject with this entry begins.
fn fresh_page(alloc: Global, entry: u64) -> Result<Seq<u8>, NoMemory>
    ensures { IfOk result (λ page. page ≡ page_bytes (started entry)) }
{
    let mut page = vec![in alloc; 0u8; PAGE as usize]?;
    state_page::write(&SubjectState::start(entry), page.as_mut_slice());
    Ok(Seq::of(page))
}

// Whether the state page of a subject is that one.
fn is_fresh(
    alloc: Global,
    image: &Image,
    part: &SubjectPart,
    subject: &Subject,
) -> Result<bool, NoMemory>
    ensures { IfOk result (λ b. Decides (page_at image.now part.now.state 0 ≡ page_bytes (started subject.now.entry)) b) }
{
    let page = page_at(alloc, image, part.state, 0)?;
    let fresh = fresh_page(alloc, subject.entry)?;
    Ok(page.as_slice() == fresh.items())
}

/// The first subject, of those that both have, whose state page isn't that of the state at the start.
///
/// # Errors
/// Memory is refused.
pub fn first_by_state(
    alloc: Global,
    expanded: &Expanded,
    image: &Parts,
) -> Result<Option<usize>, NoMemory>
    ensures { IfOk result (IsFirstFailing (λ e. IsFresh image.now e.0 e.1) (zip (source_of expanded.now.lawful).subjects image.now.subjects)) }
{
    let subjects = expanded.lawful().resolved().subjects();
    let image = image.image();
    let parts = image.subjects.items();
    for index in 0..subjects.len().min(parts.len()) {
        if !is_fresh(alloc, image, &parts[index], &subjects[index])? {
            return Ok(Some(index));
        }
    }
    Ok(None)
}
