// The command `boot`: a policy and a record are read, and the run of the policy's image is printed. The
// image is written in memory, as `build` writes it, and is read again and run as `run` does it, with the
// tables of the policy's domains of devices.
ghost use Rattle.std.specs.Prelude.{◌≡◌, ◌∷◌, Some, Ok, IfOk, IfErr, option_map};
ghost use Rattle.image_pack.specs.Parts.{IsImage};
ghost use Rattle.image_pack.specs.declared.parts.Image.{Image};
ghost use Rattle.muen_build.specs.Accepting.{Accepts, looks_of};
ghost use Rattle.muen_build.specs.Refusals.{lawful_policy_of};
ghost use Rattle.muen_outside.specs.Store.{find_bytes};
ghost use Rattle.policy_lawful.specs.Resolution.{source_of};
ghost use Rattle.record_text.specs.Law.{IsOrderly};
ghost use Rattle.muen_top.specs.Calls.{ComesOfCommand};
ghost use Rattle.muen_top.specs.Commands.{boot as boot_command};
ghost use Rattle.muen_top.specs.Loads.{ArePartsFor, HasMade, IsImageReadBack, IsReadyToBoot, NotMade, OnlyMemoryWith};
ghost use Rattle.muen_top.specs.PolicyCommands.{IsAnsweredByRun, StopsCommand, StopsEach};

use crate::loading::{load, load_too};
use crate::outcome::{CommandError, Outcome};
use crate::run::{Loaded, run_image};
use crate::tables::tables_of;
use dma_emit::Placed;
use dma_tables::DmaTables;
use image_load::read_record;
use image_pack::{Parts, unpack};
use muen_build::{Accepted, ComponentFiles, accept, image};
use muen_num::Seq;
use muen_num::limits::{POLICY_MOST, RECORD_MOST};
use muen_outside::{Files, Sink};
use std::alloc::Global;

// The parts of the image of these bytes.
fn read_back<'a>(alloc: Global, bytes: &[u8]) -> Result<Parts, CommandError<'a>>
    ensures { (i : Image) → IsImage bytes.now i → IsImageReadBack i result }
{
    let parts = unpack(alloc, bytes)?;
    Ok(parts)
}

// The image of a policy that is accepted with these files, read from the bytes that `build` would write.
fn parts_of<'a>(
    alloc: Global,
    name: &str,
    document: &[u8],
    placed: &Placed,
    found: &ComponentFiles,
) -> Result<Parts, CommandError<'a>>
    requires lawful { lawful_policy_of document.now ≡ Ok (source_of placed.now.expanded.lawful) }
    requires accepts { Accepts name.now (looks_of found.now) document.now (source_of placed.now.expanded.lawful) }
    ensures ok { IfOk result (ArePartsFor name.now document.now found.now (source_of placed.now.expanded.lawful)) }
    ensures err { IfErr result (OnlyMemoryWith name.now document.now found.now) }
{
    let bytes = image(alloc, name, document, placed, found)?;
    read_back(alloc, &bytes)
}

/// The image of a policy, the tables of its domains of devices, and the files that its contents name.
#[derive(Drop)]
pub(crate) struct Made {
    pub(crate) parts: Parts,
    pub(crate) tables: DmaTables,
    pub(crate) files: ComponentFiles,
}

/// The image of the policy of this document, and the tables of its domains, if it is accepted.
pub(crate) fn make<'a, F: Files>(
    alloc: Global,
    policy: &str,
    document: &[u8],
    files: &mut F,
) -> Result<Made, CommandError<'a>>
    ensures ok { IfOk result (HasMade policy.now document.now (F.held files.old) (F.history files.old) (F.history files.new)) }
    ensures err { IfErr result (NotMade policy.now document.now (F.held files.old) (F.history files.old) (F.history files.new)) }
    ensures held { F.held files.new ≡ F.held files.old }
{
    let Accepted {
        placed,
        files: found,
    } = accept(alloc, policy, document, files)?;
    let parts = parts_of(alloc, policy, document, &placed, &found);
    let tables = tables_of(alloc, &placed);
    drop(placed);
    Ok(Made {
        parts: parts?,
        tables: tables?,
        files: found,
    })
}

// What is read before the record: a policy's document, and what it gives.
#[derive(Drop)]
struct BeforeRecord {
    document: Seq<u8>,
    made: Made,
}

// The image of the policy of this file, with its tables.
fn ready<'a, F: Files>(
    alloc: Global,
    policy: &'a str,
    files: &mut F,
) -> Result<BeforeRecord, CommandError<'a>>
    ensures ok { IfOk result (IsReadyToBoot policy.now (F.held files.old) (F.history files.old) (F.history files.new)) }
    ensures err { IfErr result (StopsEach (boot_command policy.now) (F.held files.old) (F.history files.old) (F.history files.new)) }
    ensures held { F.held files.new ≡ F.held files.old }
{
    let document = load(alloc, policy, POLICY_MOST, files)?;
    let made = make(alloc, policy, document.items(), files)?;
    Ok(BeforeRecord { document, made })
}

// What was read under this name before the record.
fn known_before<'b>(
    policy: &str,
    document: &'b [u8],
    found: &'b ComponentFiles,
    name: &str,
) -> Option<&'b [u8]>
    ensures { option_map (λ bytes. bytes.now) result ≡ find_bytes name.now ((policy.now, document.now) ∷ found.now) }
{
    if name == policy {
        return Some(document);
    }
    found.bytes_named(name)
}

// The image of the policy of this file, with its tables, and the record of that one.
fn read_all<'a, F: Files>(
    alloc: Global,
    policy: &'a str,
    inputs: &'a str,
    files: &mut F,
) -> Result<Loaded, CommandError<'a>>
    ensures ok { IfOk result (IsAnsweredByRun (boot_command policy.now inputs.now) (F.held files.old) (F.history files.old) (F.history files.new)) }
    ensures orderly { IfOk result (λ x. IsOrderly x.input) }
    ensures err { IfErr result (StopsCommand (boot_command policy.now inputs.now) (F.held files.old) (F.history files.old) (F.history files.new)) }
    ensures held { F.held files.new ≡ F.held files.old }
{
    let BeforeRecord { document, made } = ready(alloc, policy, files)?;
    let known = known_before(policy, document.items(), &made.files, inputs);
    let bytes = load_too(alloc, known, inputs, RECORD_MOST, files)?;
    let input = read_record(alloc, &made.parts, bytes.items())?;
    Ok(Loaded {
        parts: made.parts,
        input,
        tables: Some(made.tables),
    })
}

/// Reads the policy and the record, and prints the run.
pub(crate) fn boot<'a, F: Files, S: Sink>(
    alloc: Global,
    policy: &'a str,
    inputs: &'a str,
    files: &mut F,
    out: &mut S,
) -> Outcome<'a>
    ensures { ComesOfCommand (Some (boot_command policy.now inputs.now)) (F.held files.old) (F.held files.new) (F.history files.old) (F.history files.new) (S.state out.old) (S.state out.new) result }
{
    match read_all(alloc, policy, inputs, files) {
        Ok(loaded) => run_image(alloc, loaded, out),
        Err(error) => Outcome::Stopped(error),
    }
}
