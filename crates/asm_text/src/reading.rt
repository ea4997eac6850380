//! What a line says.
ghost use Rattle.std.specs.Prelude.{◌≡◌, ◌++◌, ◌<◌, ◌≤◌, IfOk, IfSome, length, option_map};
ghost use Rattle.muen_num.specs.Answers.{Answers};
ghost use Rattle.asm_text.specs.Reading.{at_end, comma, token_count, definition, data_line, displacement, instruction, integer, integer_with, keyword, label, source_line_of, number, offset_line, operands_of, port_size, read_part, read_parts, register_token, sign_at, signed_terms, size, statement, term_of, terms, terms_of, value, values, worded};
ghost use Rattle.asm_text.specs.Shown.{is_over, mark_at, told, told_rest, told_with};
ghost use Rattle.text_words.specs.Steps.{mapped};
ghost use Rattle.asm_text.specs.Tokens.{tokens_of};

use crate::fault::{LineError, Want, wanted};
use crate::part::{Part, parts_of};
use crate::statement::{Integer, Label, Operands, Operation, SourceLine, Statement, Term, Value};
use crate::tokens::{Token, first_token};
use crate::words::{
    atom_of, data_size_of, number_in, register_of, sign_of, size_of, size_unit, symbol_of,
};
use guest_isa::{Opcode, Shape};
use muen_num::{AccessSize, Name, Seq};
use std::alloc::Global;

// ---- tokens

// This word or mark.
#[tactic(auto, unfolding(crate::specs::Reading::keyword))]
fn keyword<'a>(text: &str, want: Want, line: &'a [u8]) -> Result<&'a [u8], LineError>
    ensures rest { told_rest result ≡ keyword text.now want (tokens_of line.now) }
    ensures shorter { IfOk result (λ rest. length rest.now < length line.now) }
{
    let next = first_token(line);
    match next.token {
        Some(Token { word, rest }) if word == text.as_bytes() => Ok(rest),
        _ => Err(wanted(next.left, want)),
    }
}

#[tactic(auto, unfolding(crate::specs::Reading::register_token))]
fn register(line: &[u8]) -> Result<(u8, &[u8]), LineError>
    ensures { told result ≡ register_token (tokens_of line.now) }
{
    let next = first_token(line);
    if let Some(Token { word, rest }) = next.token {
        if let Some(register) = register_of(word) {
            return Ok((register, rest));
        }
    }
    Err(wanted(next.left, Want::Register))
}

#[tactic(auto, unfolding(crate::specs::Reading::number))]
fn number(line: &[u8]) -> Result<(u64, &[u8]), LineError>
    ensures { told result ≡ number (tokens_of line.now) }
{
    let next = first_token(line);
    if let Some(Token { word, rest }) = next.token {
        if let Some(number) = number_in(word) {
            return Ok((number, rest));
        }
    }
    Err(wanted(next.left, Want::Number))
}

// The line ends.
#[tactic(auto, unfolding(crate::specs::Reading::at_end))]
fn at_end(line: &[u8]) -> Result<(), LineError>
    ensures { result ≡ at_end (tokens_of line.now) }
{
    let next = first_token(line);
    match next.token {
        None => Ok(()),
        Some(_) => Err(wanted(next.left, Want::End)),
    }
}

fn comma(line: &[u8]) -> Result<&[u8], LineError>
    ensures rest { told_rest result ≡ comma (tokens_of line.now) }
    ensures shorter { IfOk result (λ rest. length rest.now < length line.now) }
{
    keyword(",", Want::Comma, line)
}

// A number of bytes, with its unit.
#[tactic(auto, unfolding(crate::specs::Reading::size))]
fn size(line: &[u8]) -> Result<(AccessSize, &[u8]), LineError>
    ensures { told result ≡ size (tokens_of line.now) }
{
    let next = first_token(line);
    if let Some(Token { word, rest }) = next.token {
        if let Some(size) = size_of(word) {
            let rest = keyword(size_unit(size), Want::Size, rest)?;
            return Ok((size, rest));
        }
    }
    Err(wanted(next.left, Want::Size))
}

// .. of at most four.
#[tactic(auto, unfolding(crate::specs::Reading::port_size))]
fn port_size(line: &[u8]) -> Result<(AccessSize, &[u8]), LineError>
    ensures { told result ≡ port_size (tokens_of line.now) }
{
    let (size, rest) = size(line)?;
    match size {
        AccessSize::Eight => Err(wanted(first_token(line).left, Want::Size)),
        _ => Ok((size, rest)),
    }
}

// ---- values

// A number or a name behind its sign.
fn term(minus: bool, line: &[u8]) -> Result<(Term, &[u8]), LineError>
    ensures term { told result ≡ term_of minus (tokens_of line.now) }
    ensures shorter { IfOk result (λ r. length r.1.now < length line.now) }
{
    let next = first_token(line);
    if let Some(Token { word, rest }) = next.token {
        if let Some(atom) = atom_of(word) {
            let left = next.left;
            return Ok((Term { left, minus, atom }, rest));
        }
    }
    Err(wanted(next.left, Want::Term))
}

// The sign at the head, if there is one.
fn sign(line: &[u8]) -> Option<(bool, &[u8])>
    ensures sign { option_map (λ r. (r.0, tokens_of r.1.now)) result ≡ sign_at (tokens_of line.now) }
    ensures shorter { IfSome result (λ r. length r.1.now < length line.now) }
{
    let Token { word, rest } = first_token(line).token?;
    Some((sign_of(word)?, rest))
}

// These terms, and then terms with a sign each, as many as there are.
fn signed_terms<'a>(front: Seq<Term>, line: &'a [u8]) -> Result<(Seq<Term>, &'a [u8]), LineError>
    ensures terms { Answers LineError.NoMemory (mapped (λ r. (front ++ r.0, r.1)) (signed_terms (tokens_of line.now))) (told result) }
    ensures within { IfOk result (λ r. length r.1.now ≤ length line.now) }
{
    let mut terms = front;
    let mut rest = line;
    while let Some((minus, behind)) = sign(rest) {
        match term(minus, behind) {
            Ok((term, more)) => {
                terms.push(term)?;
                rest = more;
            }
            Err(error) => return Err(error),
        }
    }
    Ok((terms, rest))
}

// A term that begins here, and those behind it.
fn terms_of(alloc: Global, minus: bool, line: &[u8]) -> Result<(Seq<Term>, &[u8]), LineError>
    ensures terms { Answers LineError.NoMemory (terms_of minus (tokens_of line.now)) (told result) }
    ensures within { IfOk result (λ r. length r.1.now ≤ length line.now) }
{
    match term(minus, line) {
        Ok((first, rest)) => {
            let mut terms = Seq::new(alloc);
            terms.push(first)?;
            signed_terms(terms, rest)
        }
        Err(error) => Err(error),
    }
}

// The terms of a sum, of which the first may have a sign.
fn terms(alloc: Global, line: &[u8]) -> Result<(Seq<Term>, &[u8]), LineError>
    ensures terms { Answers LineError.NoMemory (terms (tokens_of line.now)) (told result) }
    ensures within { IfOk result (λ r. length r.1.now ≤ length line.now) }
{
    match sign(line) {
        Some((minus, behind)) => terms_of(alloc, minus, behind),
        None => terms_of(alloc, false, line),
    }
}

// A sum.
#[tactic(auto, unfolding(crate::specs::Reading::value))]
fn value(alloc: Global, line: &[u8]) -> Result<(Value, &[u8]), LineError>
    ensures value { Answers LineError.NoMemory (value (tokens_of line.now)) (told result) }
    ensures within { IfOk result (λ r. length r.1.now ≤ length line.now) }
{
    let left = first_token(line).left;
    let (terms, rest) = terms(alloc, line)?;
    Ok((Value { left, terms }, rest))
}

// What is added to a register; nothing is 0.
#[tactic(auto, unfolding(crate::specs::Reading::displacement))]
fn displacement(alloc: Global, line: &[u8]) -> Result<(Value, &[u8]), LineError>
    ensures { Answers LineError.NoMemory (displacement (tokens_of line.now)) (told result) }
{
    let left = first_token(line).left;
    let (terms, rest) = signed_terms(Seq::new(alloc), line)?;
    Ok((Value { left, terms }, rest))
}

// Whether the line ends.
fn is_over(line: &[u8]) -> bool
    ensures { result ≡ is_over (tokens_of line.now) }
{
    first_token(line).token.is_none()
}

// Values up to the end of the line, with commas between them.
fn values(alloc: Global, line: &[u8]) -> Result<Seq<Value>, LineError>
    ensures { Answers LineError.NoMemory (values (token_count (tokens_of line.now)) (tokens_of line.now)) result }
{
    let mut values = Seq::new(alloc);
    let mut rest = line;
    loop {
        match value(alloc, rest) {
            Ok((value, behind)) => {
                values.push(value)?;
                if is_over(behind) {
                    return Ok(values);
                }
                match comma(behind) {
                    Ok(more) => rest = more,
                    Err(error) => return Err(error),
                }
            }
            Err(error) => return Err(error),
        }
    }
}

// ---- operands

// One more part, which is kept beside those that were read before it.
#[tactic(auto, unfolding(crate::specs::Reading::read_part))]
fn read_part<'a>(
    alloc: Global,
    part: Part,
    with: &mut Operands,
    line: &'a [u8],
) -> Result<&'a [u8], LineError>
    ensures { Answers LineError.NoMemory (read_part part with.old (tokens_of line.now)) (told_with result with.new) }
{
    match part {
        Part::Rd => {
            let (rd, rest) = register(line)?;
            with.rd = rd;
            Ok(rest)
        }
        Part::Rs => {
            let (rs, rest) = register(line)?;
            with.rs = rs;
            Ok(rest)
        }
        Part::Size => {
            let (size, rest) = size(line)?;
            with.size = size;
            Ok(rest)
        }
        Part::PortSize => {
            let (size, rest) = port_size(line)?;
            with.size = size;
            Ok(rest)
        }
        Part::Imm => {
            let (value, rest) = value(alloc, line)?;
            with.value = value;
            Ok(rest)
        }
        Part::Displacement => {
            let (value, rest) = displacement(alloc, line)?;
            with.value = value;
            Ok(rest)
        }
        Part::Comma => comma(line),
        Part::At => keyword("at", Want::At, line),
        Part::To => keyword("to", Want::To, line),
        Part::Port => keyword("port", Want::Port, line),
    }
}

// Parts one behind another.
#[tactic(auto, unfolding(crate::specs::Reading::read_parts))]
fn read_parts<'a>(
    alloc: Global,
    parts: &[Part],
    with: &mut Operands,
    line: &'a [u8],
) -> Result<&'a [u8], LineError>
    ensures { Answers LineError.NoMemory (read_parts parts.now with.old (tokens_of line.now)) (told_with result with.new) }
{
    match parts {
        [] => Ok(line),
        [part, others @ ..] => {
            let rest = read_part(alloc, *part, with, line)?;
            read_parts(alloc, others, with, rest)
        }
    }
}

// Nothing.
fn no_operands(alloc: Global) -> Operands
    ensures { result ≡ Rattle.asm_text.specs.Reading.no_operands }
{
    Operands {
        rd: 0,
        rs: 0,
        size: AccessSize::One,
        value: Value {
            left: 0,
            terms: Seq::new(alloc),
        },
    }
}

// What stands behind a word of this shape.
fn operands_of(alloc: Global, shape: Shape, line: &[u8]) -> Result<(Operands, &[u8]), LineError>
    ensures { Answers LineError.NoMemory (operands_of shape (tokens_of line.now)) (told result) }
{
    let mut with = no_operands(alloc);
    let rest = read_parts(alloc, parts_of(shape), &mut with, line)?;
    Ok((with, rest))
}

// ---- statements

// An instruction, up to the end of the line.
#[tactic(auto, unfolding(crate::specs::Reading::instruction))]
fn instruction(
    alloc: Global,
    left: usize,
    opcode: Opcode,
    line: &[u8],
) -> Result<Statement, LineError>
    ensures { Answers LineError.NoMemory (instruction left opcode (tokens_of line.now)) result }
{
    let (operands, rest) = operands_of(alloc, opcode.shape(), line)?;
    at_end(rest)?;
    Ok(Statement::Instruction(Operation {
        left,
        opcode,
        operands,
    }))
}

// Data, up to the end of the line.
#[tactic(auto, unfolding(crate::specs::Reading::data_line))]
fn data_line(
    alloc: Global,
    left: usize,
    size: AccessSize,
    line: &[u8],
) -> Result<Statement, LineError>
    ensures { Answers LineError.NoMemory (data_line left size (tokens_of line.now)) result }
{
    let values = values(alloc, line)?;
    Ok(Statement::Data { left, size, values })
}

// `.at` with a number, up to the end of the line.
#[tactic(auto, unfolding(crate::specs::Reading::offset_line))]
fn offset_line(left: usize, line: &[u8]) -> Result<Statement, LineError>
    ensures { result ≡ offset_line left (tokens_of line.now) }
{
    let (offset, rest) = number(line)?;
    at_end(rest)?;
    Ok(Statement::Offset { left, offset })
}

// A number with this sign.
fn integer_with(minus: bool, line: &[u8]) -> Result<(Integer, &[u8]), LineError>
    ensures { told result ≡ integer_with minus (tokens_of line.now) }
{
    let (magnitude, rest) = number(line)?;
    Ok((Integer { minus, magnitude }, rest))
}

// A number, maybe with `-`.
fn integer(line: &[u8]) -> Result<(Integer, &[u8]), LineError>
    ensures { told result ≡ integer (tokens_of line.now) }
{
    match sign(line) {
        Some((true, behind)) => integer_with(true, behind),
        _ => integer_with(false, line),
    }
}

// The name that a word is.
fn name_at(left: usize, word: &[u8]) -> Result<Name, LineError>
    ensures { result ≡ Rattle.asm_text.specs.Reading.name_or_wanted left word.now }
{
    symbol_of(word).ok_or(wanted(left, Want::Name))
}

// NAME = NUMBER, where the name stands before this.
#[tactic(auto, unfolding(crate::specs::Reading::definition))]
fn definition(left: usize, word: &[u8], line: &[u8]) -> Result<Statement, LineError>
    ensures { result ≡ definition left word.now (tokens_of line.now) }
{
    let name = name_at(left, word)?;
    let (number, rest) = integer(line)?;
    at_end(rest)?;
    Ok(Statement::Definition { left, name, number })
}

// What a word begins.
fn worded(alloc: Global, left: usize, word: &[u8], line: &[u8]) -> Result<Statement, LineError>
    ensures { Answers LineError.NoMemory (worded left word.now (tokens_of line.now)) result }
{
    if word == b".at".as_slice() {
        return offset_line(left, line);
    }
    match data_size_of(word) {
        Some(size) => data_line(alloc, left, size, line),
        None => match Opcode::with(word) {
            Some(opcode) => instruction(alloc, left, opcode, line),
            None => Err(wanted(left, Want::Mnemonic)),
        },
    }
}

// What stands behind this mark, if it comes next.
fn behind_mark<'a>(mark: &str, line: &'a [u8]) -> Option<&'a [u8]>
    ensures { option_map (λ r. tokens_of r.now) result ≡ mark_at mark.now (tokens_of line.now) }
{
    let Token { word, rest } = first_token(line).token?;
    if word == mark.as_bytes() {
        Some(rest)
    } else {
        None
    }
}

// A statement, or nothing.
#[tactic(auto, unfolding(crate::specs::Reading::statement))]
fn statement(alloc: Global, line: &[u8]) -> Result<Statement, LineError>
    ensures { Answers LineError.NoMemory (statement (tokens_of line.now)) result }
{
    let next = first_token(line);
    let Some(Token { word, rest }) = next.token else {
        return Ok(Statement::Nothing);
    };
    match behind_mark("=", rest) {
        Some(behind) => definition(next.left, word, behind),
        None => worded(alloc, next.left, word, rest),
    }
}

// A label, where one stands there.
#[tactic(auto, unfolding(crate::specs::Reading::label))]
fn label(line: &[u8]) -> Result<(Option<Label>, &[u8]), LineError>
    ensures { told result ≡ label (tokens_of line.now) }
{
    let next = first_token(line);
    if let Some(Token { word, rest }) = next.token {
        if let Some(behind) = behind_mark(":", rest) {
            let left = next.left;
            let name = name_at(left, word)?;
            return Ok((Some(Label { left, name }), behind));
        }
    }
    Ok((None, line))
}

/// What a line says.
#[tactic(auto, unfolding(crate::specs::Reading::source_line_of))]
pub(crate) fn line_of(alloc: Global, line: &[u8]) -> Result<SourceLine, LineError>
    ensures { Answers LineError.NoMemory (source_line_of (tokens_of line.now)) result }
{
    match label(line) {
        Ok((label, rest)) => {
            let statement = statement(alloc, rest)?;
            Ok(SourceLine { label, statement })
        }
        Err(error) => Err(error),
    }
}
