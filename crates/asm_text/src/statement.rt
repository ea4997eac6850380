//! What a line of a source says.
use guest_isa::Opcode;
use muen_num::{AccessSize, Name, Seq};

/// A number, or a name for one.
#[derive(Clone, Copy, Debug)]
pub enum Atom {
    Number(u64),
    Name(Name),
}

/// A number with its sign.
#[derive(Clone, Copy, Debug)]
pub struct Integer {
    pub minus: bool,
    pub magnitude: u64,
}

/// What a name stands for.
#[derive(Clone, Copy, Debug)]
pub enum Meaning {
    /// Where what follows a label begins.
    Offset(u64),
    Number(Integer),
}

/// A part of a sum. `left` tells where it stands: so many bytes of the line are left there.
#[derive(Clone, Copy, Debug)]
pub struct Term {
    pub left: usize,
    /// It is subtracted.
    pub minus: bool,
    pub atom: Atom,
}

/// A sum of terms; of none, 0.
#[derive(Debug, Drop)]
pub struct Value {
    pub left: usize,
    pub terms: Seq<Term>,
}

/// What stands behind an instruction's word: 0, one byte and no terms for what its shape hasn't.
#[derive(Debug, Drop)]
pub struct Operands {
    pub rd: u8,
    pub rs: u8,
    pub size: AccessSize,
    pub value: Value,
}

/// An instruction.
#[derive(Debug, Drop)]
pub struct Operation {
    pub left: usize,
    pub opcode: Opcode,
    pub operands: Operands,
}

/// What a line says behind its label.
#[derive(Debug, Drop)]
pub enum Statement {
    Nothing,
    /// A name for a number.
    Definition {
        left: usize,
        name: Name,
        number: Integer,
    },
    /// What follows begins at this offset.
    Offset {
        left: usize,
        offset: u64,
    },
    /// Numbers of this size.
    Data {
        left: usize,
        size: AccessSize,
        values: Seq<Value>,
    },
    Instruction(Operation),
}

/// A name for the offset of what follows it.
#[derive(Clone, Copy, Debug)]
pub struct Label {
    pub left: usize,
    pub name: Name,
}

/// A line of a source.
#[derive(Debug, Drop)]
pub struct SourceLine {
    pub label: Option<Label>,
    pub statement: Statement,
}

/// A line in its source: its number from 1 on, the column behind it, and where what it says begins.
#[derive(Debug, Drop)]
pub struct Placed {
    pub number: u64,
    pub end: u64,
    pub here: u64,
    pub statement: Statement,
}
