// The command `build`: a policy is read, and its image is written, and the tables of its domains of devices,
// if a file is named for them.
ghost use Rattle.std.specs.Prelude.{◌≡◌, Option, Some, IfOk, IfErr, IfSome, is_some, option_map};
ghost use Rattle.muen_outside.specs.States.{SinkState};
ghost use Rattle.policy_lawful.specs.Resolution.{source_of};
ghost use Rattle.muen_top.specs.Calls.{ComesOfBuild};
ghost use Rattle.muen_top.specs.Images.{HasBuilt};
ghost use Rattle.muen_top.specs.Kept.{EndsBuilt, EndsTables, EndsWrite};
ghost use Rattle.muen_top.specs.PolicyCommands.{StopsBuild};
ghost use Rattle.muen_top.specs.Tables.{IsTablesFor};

use crate::loading::load;
use crate::outcome::{CommandError, Outcome};
use crate::tables::tables_file;
use dma_emit::Placed;
use muen_build::{Accepted, accept, image};
use muen_num::NoMemory;
use muen_num::limits::POLICY_MOST;
use muen_outside::{FileError, Files};
use std::alloc::Global;

// What is written for a policy: the bytes of its image, and those of its tables, if they are wanted.
#[derive(Drop)]
struct Built {
    image: Vec<u8>,
    tables: Option<Vec<u8>>,
}

// The bytes of the tables of a policy, if they are wanted.
fn wanted_tables(alloc: Global, placed: &Placed, wanted: bool) -> Result<Option<Vec<u8>>, NoMemory>
    ensures are { IfOk result (λ tables. IfSome tables (λ v. IsTablesFor (source_of placed.now.expanded.lawful) v.items)) }
    ensures there { IfOk result (λ tables. is_some tables ≡ wanted) }
{
    if wanted {
        let bytes = tables_file(alloc, placed)?;
        return Ok(Some(bytes));
    }
    Ok(None)
}

// What is to be written for the policy of this file.
fn built_of<'a, F: Files>(
    alloc: Global,
    policy: &'a str,
    wanted: bool,
    files: &mut F,
) -> Result<Built, CommandError<'a>>
    ensures ok { IfOk result (HasBuilt policy.now (F.held files.old) (F.history files.old) (F.history files.new)) }
    ensures there { IfOk result (λ b. is_some b.tables ≡ wanted) }
    ensures err { IfErr result (StopsBuild policy.now (F.held files.old) (F.history files.old) (F.history files.new)) }
    ensures held { F.held files.new ≡ F.held files.old }
{
    let document = load(alloc, policy, POLICY_MOST, files)?;
    let Accepted {
        placed,
        files: found,
    } = accept(alloc, policy, document.items(), files)?;
    let image = image(alloc, policy, document.items(), &placed, &found);
    let tables = wanted_tables(alloc, &placed, wanted);
    drop(placed);
    Ok(Built {
        image: image?,
        tables: tables?,
    })
}

// Puts the bytes under this name.
fn write_file<'a, F: Files>(alloc: Global, name: &str, bytes: &[u8], files: &mut F) -> Outcome<'a>
    ensures { EndsWrite name.now bytes.now (F.held files.old) (F.held files.new) (F.history files.old) (F.history files.new) result }
{
    match files.write(alloc, name, bytes) {
        Ok(()) => Outcome::Done,
        Err(FileError::Failed) => Outcome::Stopped(CommandError::FileFault),
        Err(FileError::NoMemory) => Outcome::Stopped(CommandError::NoMemory),
    }
}

// Puts the bytes of tables under this name, if there are both.
fn write_tables<'a, F: Files>(
    alloc: Global,
    dma: Option<&str>,
    tables: Option<Vec<u8>>,
    files: &mut F,
) -> Outcome<'a>
    ensures { EndsTables (option_map (λ n. n.now) dma.entry) (option_map (λ v. v.items) tables) (F.held files.old) (F.held files.new) (F.history files.old) (F.history files.new) result }
{
    match (dma, tables) {
        (Some(name), Some(bytes)) => write_file(alloc, name, &bytes, files),
        _ => Outcome::Done,
    }
}

// Puts the image under its name, and then the tables under theirs.
fn write_all<'a, F: Files>(
    alloc: Global,
    image: &str,
    dma: Option<&str>,
    built: Built,
    files: &mut F,
) -> Outcome<'a>
    ensures { EndsBuilt image.now (option_map (λ n. n.now) dma.entry) built (F.held files.old) (F.held files.new) (F.history files.old) (F.history files.new) result }
{
    match write_file(alloc, image, &built.image, files) {
        Outcome::Done => write_tables(alloc, dma, built.tables, files),
        failed => failed,
    }
}

/// Reads the policy, and writes its image, and then its tables, if a file is named for them. Nothing is
/// written where one isn't made.
pub(crate) fn build<'a, F: Files>(
    alloc: Global,
    policy: &'a str,
    image: &'a str,
    dma: Option<&'a str>,
    files: &mut F,
) -> Outcome<'a>
    ensures { (out : SinkState) → ComesOfBuild policy.now image.now (option_map (λ n. n.now) dma.entry) (F.held files.old) (F.held files.new) (F.history files.old) (F.history files.new) out out result }
{
    match built_of(alloc, policy, dma.is_some(), files) {
        Ok(built) => write_all(alloc, image, dma, built, files),
        Err(error) => Outcome::Stopped(error),
    }
}
