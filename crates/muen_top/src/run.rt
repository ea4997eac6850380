// The command `run`: an image, tables for direct memory access, if a file of them is named, and a record
// are read, and the image's run is printed.
ghost use Rattle.std.specs.Prelude.{◌≡◌, List, Ok, Err, Some, IfOk, IfErr, if◌then◌else◌, None, option_map};
ghost use Rattle.std.specs.Str.{bytes_eq};
ghost use Rattle.image_pack.specs.fault.ImageFault.{ImageFault};
ghost use Rattle.dma_tables.specs.Tables.{IsDmaFile};
ghost use Rattle.muen_num.specs.declared.limits.TheConstants.{IMAGE_MOST};
ghost use Rattle.muen_outside.specs.States.{Look};
ghost use Rattle.muen_outside.specs.Store.{find_bytes};
ghost use Rattle.muen_run.specs.RunText.{run_text};
ghost use Rattle.muen_top.specs.Calls.{ComesOfRun};
ghost use Rattle.muen_top.specs.Commands.{run as run_command};
ghost use Rattle.muen_top.specs.Loads.{AreTables, HasOptionalDmaTables, IsKnown, IsAfterBytes, IsReadyToRun, LacksTables, NotTables, TellsDmaFault, read_before};
ghost use Rattle.muen_top.specs.PolicyCommands.{IsAnsweredByRun, StopsCommand, StopsRun};
ghost use Rattle.muen_top.specs.Runs.{RunsTo};
ghost use Rattle.record_text.specs.Law.{IsOrderly};

use crate::limits::DMA_MOST;
use crate::loading::{load, load_too};
use crate::outcome::{CommandError, Outcome};
use dma_tables::DmaTables;
use image_load::read_record;
use image_pack::{ImageFault, Parts, unpack};
use muen_num::Seq;
use muen_num::limits::{IMAGE_MOST, RECORD_MOST};
use muen_outside::{Files, Sink};
use muen_run::RunError;
use record_text::{Input, Record};
use std::alloc::Global;

/// What is run: an image, a record for it, and tables for its devices' direct memory access, or none.
#[derive(Drop)]
pub(crate) struct Loaded {
    pub(crate) parts: Parts,
    pub(crate) input: Record<Input>,
    pub(crate) tables: Option<DmaTables>,
}

// Tables, and the bytes of their file.
#[derive(Drop)]
struct TablesRead {
    tables: DmaTables,
    bytes: Seq<u8>,
}

// What is read before the record: an image, with the bytes of its file, and tables, or none.
#[derive(Drop)]
struct BeforeRecord {
    parts: Parts,
    bytes: Seq<u8>,
    tables: Option<TablesRead>,
}

// What was read under the one name, if the other is the same.
pub(crate) fn known_as<'b>(name: &str, other: &str, bytes: &'b [u8]) -> Option<&'b [u8]>
    ensures { option_map (λ found. found.now) result ≡ (if bytes_eq name.now other.now then Some bytes.now else None) }
{
    if name == other { Some(bytes) } else { None }
}

// The tables of these bytes.
fn tables_in<'a>(alloc: Global, bytes: &[u8]) -> Result<DmaTables, CommandError<'a>>
    ensures ok { IfOk result (IsDmaFile bytes.now) }
    ensures err { IfErr result (TellsDmaFault bytes.now) }
{
    match dma_tables::unpack(alloc, bytes) {
        Ok(tables) => Ok(tables),
        Err(ImageFault::NoMemory) => Err(CommandError::NoMemory),
        Err(fault) => Err(CommandError::DmaRefused(fault)),
    }
}

// The tables in the file of this name. `known` is what was read under the name before, if anything was.
fn read_tables<'a, F: Files>(
    alloc: Global,
    known: Option<&[u8]>,
    dma: &'a str,
    files: &mut F,
) -> Result<TablesRead, CommandError<'a>>
    ensures ok { (looks : List Look) → IsKnown looks dma.now (option_map (λ b. b.now) known.entry) → IfOk result (AreTables looks dma.now (F.held files.old) (F.history files.old) (F.history files.new)) }
    ensures err { (looks : List Look) → IsKnown looks dma.now (option_map (λ b. b.now) known.entry) → IfErr result (NotTables looks dma.now (F.held files.old) (F.history files.old) (F.history files.new)) }
    ensures held { F.held files.new ≡ F.held files.old }
{
    let bytes = load_too(alloc, known, dma, DMA_MOST, files)?;
    let tables = tables_in(alloc, bytes.items())?;
    Ok(TablesRead { tables, bytes })
}

// .. if there is one, after that of an image.
fn read_named<'a, F: Files>(
    alloc: Global,
    image: &str,
    bytes: &[u8],
    dma: Option<&'a str>,
    files: &mut F,
) -> Result<Option<TablesRead>, CommandError<'a>>
    ensures ok { IsAfterBytes image.now bytes.now (λ looks. IfOk result (HasOptionalDmaTables looks (option_map (λ n. n.now) dma.entry) (F.held files.old) (F.history files.old) (F.history files.new))) }
    ensures err { IsAfterBytes image.now bytes.now (λ looks. IfErr result (LacksTables looks (option_map (λ n. n.now) dma.entry) (F.held files.old) (F.history files.old) (F.history files.new))) }
    ensures held { F.held files.new ≡ F.held files.old }
{
    match dma {
        None => Ok(None),
        Some(name) => {
            let found = read_tables(alloc, known_as(name, image, bytes), name, files)?;
            Ok(Some(found))
        }
    }
}

// The image of this file, and the tables of that one, if there is one.
fn ready<'a, F: Files>(
    alloc: Global,
    image: &'a str,
    dma: Option<&'a str>,
    files: &mut F,
) -> Result<BeforeRecord, CommandError<'a>>
    ensures ok { IfOk result (IsReadyToRun image.now (option_map (λ n. n.now) dma.entry) (F.held files.old) (F.history files.old) (F.history files.new)) }
    ensures err { IfErr result (StopsRun image.now (option_map (λ n. n.now) dma.entry) (F.held files.old) (F.history files.old) (F.history files.new)) }
    ensures held { F.held files.new ≡ F.held files.old }
{
    let bytes = load(alloc, image, IMAGE_MOST, files)?;
    let parts = unpack(alloc, bytes.items())?;
    let tables = read_named(alloc, image, bytes.items(), dma, files)?;
    Ok(BeforeRecord {
        parts,
        bytes,
        tables,
    })
}

// What was read under this name before the record.
fn known_before<'b>(
    image: &str,
    bytes: &'b [u8],
    dma: Option<&str>,
    tables: &'b Option<TablesRead>,
    name: &str,
) -> Option<&'b [u8]>
    ensures { option_map (λ found. found.now) result ≡ find_bytes name.now (read_before image.now bytes.now (option_map (λ n. n.now) dma.entry) tables.now) }
{
    if let (Some(dma), Some(found)) = (dma, tables) {
        if name == dma {
            return Some(found.bytes.items());
        }
    }
    known_as(name, image, bytes)
}

// The tables alone.
fn tables_of(found: Option<TablesRead>) -> Option<DmaTables>
    ensures { result ≡ option_map (λ t. t.tables) found }
{
    match found {
        None => None,
        Some(TablesRead { tables, .. }) => Some(tables),
    }
}

// The image, the tables and the record of these files.
fn read_all<'a, F: Files>(
    alloc: Global,
    image: &'a str,
    inputs: &'a str,
    dma: Option<&'a str>,
    files: &mut F,
) -> Result<Loaded, CommandError<'a>>
    ensures ok { IfOk result (IsAnsweredByRun (run_command image.now inputs.now (option_map (λ n. n.now) dma.entry)) (F.held files.old) (F.history files.old) (F.history files.new)) }
    ensures orderly { IfOk result (λ x. IsOrderly x.input) }
    ensures err { IfErr result (StopsCommand (run_command image.now inputs.now (option_map (λ n. n.now) dma.entry)) (F.held files.old) (F.history files.old) (F.history files.new)) }
    ensures held { F.held files.new ≡ F.held files.old }
{
    let ready = ready(alloc, image, dma, files)?;
    let known = known_before(image, ready.bytes.items(), dma, &ready.tables, inputs);
    let bytes = load_too(alloc, known, inputs, RECORD_MOST, files)?;
    let input = read_record(alloc, &ready.parts, bytes.items())?;
    Ok(Loaded {
        parts: ready.parts,
        input,
        tables: tables_of(ready.tables),
    })
}

/// Runs an image on a record for it, with these tables or none, and prints the run.
pub(crate) fn run_image<'a, S: Sink>(alloc: Global, loaded: Loaded, out: &mut S) -> Outcome<'a>
    requires { IsOrderly loaded.input }
    ensures { RunsTo (run_text loaded.tables loaded.parts loaded.input) (S.state out.old) (S.state out.new) result }
{
    let Loaded {
        parts,
        input,
        tables,
    } = loaded;
    match muen_run::run(alloc, parts, input, tables.as_ref(), out) {
        Ok(()) => Outcome::Done,
        Err(RunError::OutFault) => Outcome::OutputFault,
        Err(RunError::NoMemory) => Outcome::Stopped(CommandError::NoMemory),
    }
}

/// Reads the image, the tables if a file of them is named, and the record, and prints the run.
pub(crate) fn run<'a, F: Files, S: Sink>(
    alloc: Global,
    image: &'a str,
    inputs: &'a str,
    dma: Option<&'a str>,
    files: &mut F,
    out: &mut S,
) -> Outcome<'a>
    ensures { ComesOfRun image.now inputs.now (option_map (λ n. n.now) dma.entry) (F.held files.old) (F.held files.new) (F.history files.old) (F.history files.new) (S.state out.old) (S.state out.new) result }
{
    match read_all(alloc, image, inputs, dma, files) {
        Ok(loaded) => run_image(alloc, loaded, out),
        Err(error) => Outcome::Stopped(error),
    }
}
