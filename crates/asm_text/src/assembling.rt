//! The bytes of a source.
ghost use Rattle.std.specs.Prelude.{◌≡◌, ◌++◌, ◌<◌, ◌*◌, ◌^◌, length, OnOk};
ghost use Rattle.muen_num.specs.AccessSize.{bytes_of};
ghost use Rattle.muen_num.specs.Answers.{Answers};
ghost use Rattle.asm_text.specs.Appended.{FollowFrom, IsFit, IsFitAt, appended, of_numbers, bytes_if_ok};
ghost use Rattle.text_words.specs.Steps.{mapped};
ghost use Rattle.asm_text.specs.Meaning.{assembled, bytes_of_items, assembled_item_of, items_of, little_endian, numbers_of};

use crate::fault::{LineError, SourceFault};
use crate::layout::{Layout, fault_in, layout_of};
use crate::meaning::{immediate_of, number_of};
use crate::statement::{Meaning, Operation, Placed, Statement, Value};
use guest_isa::{Instr, encode};
use muen_num::{AccessSize, Name, NoMemory};
use std::alloc::Global;
use std::collections::BTreeMap;

// The lowest bytes of a number, lowest first.
fn put_number(out: &mut Vec<u8>, size: AccessSize, n: u64) -> Result<(), NoMemory>
    requires { n < 2 ^ (8 * bytes_of size) }
    ensures { OnOk result (out.new.items ≡ out.old.items ++ little_endian size n) }
{
    match size {
        AccessSize::One => out.push(n as u8)?,
        AccessSize::Two => out.extend_from_slice(&(n as u16).to_le_bytes())?,
        AccessSize::Four => out.extend_from_slice(&(n as u32).to_le_bytes())?,
        AccessSize::Eight => out.extend_from_slice(&n.to_le_bytes())?,
    }
    Ok(())
}

// The numbers of these values.
fn put_numbers(
    out: &mut Vec<u8>,
    names: &BTreeMap<Name, Meaning>,
    size: AccessSize,
    values: &[Value],
) -> Result<(), LineError>
    ensures { Answers LineError.NoMemory (of_numbers out.old.items size (numbers_of names.now.entries size values.now)) (bytes_if_ok result out.new.items) }
{
    for value in values {
        match number_of(names, size, value) {
            Ok(n) => put_number(out, size, n)?,
            Err(error) => return Err(error),
        }
    }
    Ok(())
}

fn put_instruction(
    out: &mut Vec<u8>,
    names: &BTreeMap<Name, Meaning>,
    here: u64,
    operation: &Operation,
) -> Result<(), LineError>
    requires { IsFit operation.now }
    ensures { Answers LineError.NoMemory (appended out.old.items (assembled_item_of names.now.entries here (Statement.Instruction operation.now))) (bytes_if_ok result out.new.items) }
{
    let imm = immediate_of(names, here, operation)?;
    let with = &operation.operands;
    let instruction = Instr::new(operation.opcode, with.rd, with.rs, with.size, imm);
    out.extend_from_slice(&encode(&instruction))?;
    Ok(())
}

// What a line comes to.
fn put_line(
    out: &mut Vec<u8>,
    names: &BTreeMap<Name, Meaning>,
    line: &Placed,
) -> Result<(), LineError>
    requires here { line.now.here ≡ length out.old.items }
    requires fit { IsFitAt line.now.here line.now.statement }
    ensures { Answers LineError.NoMemory (appended out.old.items (assembled_item_of names.now.entries line.now.here line.now.statement)) (bytes_if_ok result out.new.items) }
{
    match &line.statement {
        Statement::Nothing | Statement::Definition { .. } => Ok(()),
        Statement::Offset { offset, .. } => {
            out.resize(*offset as usize, 0)?;
            Ok(())
        }
        Statement::Data { size, values, .. } => put_numbers(out, names, *size, values.items()),
        Statement::Instruction(operation) => put_instruction(out, names, line.here, operation),
    }
}

// The bytes of lines that follow one another.
fn bytes_of(alloc: Global, layout: &Layout) -> Result<Vec<u8>, SourceFault>
    requires { FollowFrom 0 layout.now.lines }
    ensures { Answers SourceFault.NoMemory (mapped bytes_of_items (items_of layout.now.names.entries layout.now.lines)) (mapped (λ v. v.items) result) }
{
    let mut out = Vec::new(alloc);
    for line in layout.lines.items() {
        match put_line(&mut out, &layout.names, line) {
            Ok(()) => {}
            Err(error) => return Err(fault_in(line.number, line.end, error)),
        }
    }
    Ok(out)
}

/// The bytes that a source says: of each instruction its eight, data, and zeros up to an offset; or
/// the first fault: first of the lines as they are, then of what names stand for. `NoMemory` comes
/// only where memory was refused. The time grows with the number of bytes, and with the logarithm of
/// the number of names.
pub fn assemble(alloc: Global, text: &[u8]) -> Result<Vec<u8>, SourceFault>
    ensures { Answers SourceFault.NoMemory (assembled text.now) (mapped (λ v. v.items) result) }
{
    match layout_of(alloc, text) {
        Ok(layout) => bytes_of(alloc, &layout),
        Err(fault) => Err(fault),
    }
}
