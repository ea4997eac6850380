//! Tables that are known to keep the conditions of a file, read from their bytes and written as them.
ghost use Rattle.std.specs.Prelude.{◌≡◌, ◌≤◌, ◌<◌, Err, ◌++◌, ℕ, List, length, Ok, IfOk};
ghost use Rattle.binary_form.specs.Form.{IsBytes};
ghost use Rattle.binary_form.specs.Faults.{IsShort, Tells, unpacked};
ghost use Rattle.binary_form.specs.declared.fault.Field.{Field};
ghost use Rattle.dma_tables.specs.DmaConditions.{KeepsConditions};
ghost use Rattle.dma_tables.specs.DmaFile.{dma_file};
ghost use Rattle.dma_tables.specs.Tables.{AreTables, IsDmaFile, most_dma_bytes};
ghost use Rattle.dma_tables.specs.declared.file.DmaFile.{DmaFile};

use crate::file::DmaFile;
use crate::reading::all_of;
use crate::writing::put_file;
use binary_form::{ImageFault, fault_of};
use muen_num::NoMemory;
use std::alloc::{AllocError, Global};
use std::marker::Model;

/// Tables for direct memory access, which keep the conditions of a file.
#[derive(Debug, Drop)]
pub struct DmaTables {
    file: DmaFile,
}

impl Model for DmaTables {
    ghost use Rattle.dma_tables.specs.declared.file.DmaFile.{DmaFile};
    ghost use Rattle.dma_tables.specs.Tables.{AreTables};

    ghost Value = { DmaFile };

    ghost view = { λ t. t.file };

    ghost invariant = { λ t. AreTables t.file };
}

impl DmaTables {
    /// The tables that this says.
    pub fn make(file: DmaFile) -> DmaTables
        requires { AreTables file }
        ensures { result ≡ file }
    {
        DmaTables { file }
    }

    /// What they say, lent.
    pub fn file(&self) -> &DmaFile
        ensures same { result.now ≡ self.now }
        ensures tables { AreTables self.now }
    {
        &self.file
    }
}

/// The tables that the bytes spell.
///
/// # Errors
/// The first fault of the bytes, with the offset of its field; memory is refused.
pub fn unpack(alloc: Global, bytes: &[u8]) -> Result<DmaTables, ImageFault>
    // What is read is spelled so, each byte of it.
    ensures found { IfOk result (λ t. IsDmaFile bytes.now t) }
    // What is spelled so is read, unless memory runs out.
    ensures only { (t : DmaFile) → IsDmaFile bytes.now t → Tells (Ok t) result }
    // Which fault it is.
    ensures exact { Tells (unpacked dma_file bytes.now) result }
{
    match all_of(alloc, bytes) {
        Ok(file) => Ok(DmaTables { file }),
        Err(error) => Err(fault_of(bytes.len(), error)),
    }
}

// The bytes of tables that keep the conditions.
fn packed(alloc: Global, file: &DmaFile) -> Result<Vec<u8>, AllocError>
    requires { AreTables file.now }
    ensures { IfOk result (λ v. IsDmaFile v.items file.now) }
{
    let mut out = Vec::new(alloc);
    put_file(&mut out, file)?;
    Ok(out)
}

/// The one spelling of the tables.
///
/// # Errors
/// Memory is refused.
pub fn pack(alloc: Global, tables: &DmaTables) -> Result<Vec<u8>, NoMemory>
    ensures { IfOk result (λ v. IsDmaFile v.items tables.now) }
{
    let bytes = packed(alloc, tables.file())?;
    Ok(bytes)
}

/// Bytes and tables determine each other.
pub fn one_to_one()
    // What is packed is unpacked again.
    ensures back { (t : DmaFile) → AreTables t → unpacked dma_file (dma_file.spell t) ≡ Ok t }
    // No other bytes spell what was unpacked, and no byte is left over.
    ensures spelled { (bytes : List ℕ) (t : DmaFile) → IsBytes bytes → unpacked dma_file bytes ≡ Ok t → IsDmaFile bytes t }
    // Different tables have different bytes.
    ensures apart { (t u : DmaFile) → AreTables t → AreTables u → dma_file.spell t ≡ dma_file.spell u → t ≡ u }
{}

/// The conditions on tables in plain words.
pub fn conditions()
    // What keeps them is tables,
    ensures enough { (t : DmaFile) → KeepsConditions t → AreTables t }
    // and all tables keep them.
    ensures kept { (t : DmaFile) → AreTables t → KeepsConditions t }
{}

/// What a file is made of.
pub fn tables_are_bytes()
    // Tables are spelled in bytes,
    ensures spelled { (t : DmaFile) → AreTables t → IsBytes (dma_file.spell t) }
    // so a file is made of bytes,
    ensures bytes { (bytes : List ℕ) (t : DmaFile) → IsDmaFile bytes t → IsBytes bytes }
    // of no more than the longest file has.
    ensures bounded { (bytes : List ℕ) (t : DmaFile) → IsDmaFile bytes t → length bytes ≤ most_dma_bytes }
{}

/// The fault is the first one.
pub fn first_fault()
    // Whatever follows the field, the fault is this one.
    ensures stays { (bytes more : List ℕ) (at : ℕ) (f : Field) → unpacked dma_file bytes ≡ Err (ImageFault.Bad at f) → unpacked dma_file (bytes ++ more) ≡ Err (ImageFault.Bad at f) }
    // What ends before the field has no fault but that it ends.
    ensures before { (bytes more : List ℕ) (at : ℕ) (f : Field) → length bytes < at → unpacked dma_file (bytes ++ more) ≡ Err (ImageFault.Bad at f) → IsShort (unpacked dma_file bytes) }
    ensures short { (bytes more : List ℕ) (at : ℕ) → unpacked dma_file (bytes ++ more) ≡ Err (ImageFault.Short at) → IsShort (unpacked dma_file bytes) }
{}
