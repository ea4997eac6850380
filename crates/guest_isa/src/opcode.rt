//! The table of instructions: a row each.
ghost use Rattle.std.specs.Prelude.{◌≡◌, ◌≤◌, length, slice_get};
ghost use Rattle.std.specs.List.{find};
ghost use Rattle.std.specs.Str.{bytes_eq};
ghost use Rattle.guest_isa.specs.GuestIsa.{AreRows, named, number_of, opcode_at, opcode_with, row_of, row_shown, shape_of, word_of};

/// What an instruction does. Its number is its place here, from 0 on.
#[derive(Clone, Copy, Debug, PartialEq, Eq)]
pub enum Opcode {
    /// Does nothing.
    Nop,
    /// Loads the immediate into register `rd`.
    Li,
    /// Sets bits 63:32 of register `rd` to the immediate's 32 bits.
    Lih,
    /// Copies register `rs` to `rd`.
    Mov,
    /// Adds register `rs` to `rd`.
    Add,
    /// Subtracts register `rs` from `rd`.
    Sub,
    /// Keeps the bits of register `rd` that are set in `rs`.
    And,
    /// Sets the bits of register `rd` that are set in `rs`.
    Or,
    /// Turns the bits of register `rd` that are set in `rs`.
    Xor,
    /// Shifts register `rd` left by `rs` modulo 64.
    Shl,
    /// Shifts register `rd` right by `rs` modulo 64; zeros come in.
    Shr,
    /// Loads the bytes at `rs + imm`, zero-extended, into register `rd`.
    Load,
    /// Stores the low bytes of register `rd` at `rs + imm`.
    Store,
    /// Jumps by the immediate from its own address.
    Jmp,
    /// Jumps where register `rd` is 0.
    Jz,
    /// Jumps where register `rd` isn't 0.
    Jnz,
    /// Jumps where register `rd` is below `rs`, both unsigned.
    Jb,
    /// Loads the input at port `rs + imm`, taken modulo 65536, zero-extended, into register `rd`.
    /// The size is at most four bytes.
    In,
    /// Writes the low bytes of register `rd` to port `rs + imm`, taken modulo 65536. The size is at
    /// most four bytes.
    Out,
    /// Reads the machine-specific register whose index is the low 32 bits of `rs` into `rd`.
    Rdmsr,
    /// Writes register `rd` to the machine-specific register whose index is the low 32 bits of
    /// `rs`.
    Wrmsr,
    /// Reads the tick into register `rd`.
    Rdtsc,
    /// Calls the kernel with the number in register `rs`.
    Vmcall,
    /// Halts.
    Hlt,
    /// Lets events in.
    Sti,
    /// Keeps events out.
    Cli,
    /// Sets the address of the event handlers to register `rs`.
    Setv,
    /// Returns from an event handler: goes on where the event interrupted, and lets events in.
    Reti,
}

/// Which fields an instruction has: what stands behind its word in a source.
#[derive(Clone, Copy, Debug)]
pub enum Shape {
    /// Nothing.
    Alone,
    /// `rd, imm`
    Immediate,
    /// `rd, imm`, where the immediate is 32 bits, signed or not
    High,
    /// `rd, rs`
    Pair,
    /// `rd, SIZE at rs + imm`
    Memory,
    /// `rd, SIZE at port rs + imm`
    PortRead,
    /// `rd, SIZE to port rs + imm`
    PortWrite,
    /// `rd`
    Destination,
    /// `rs`
    Source,
    /// `imm`, from the jump itself on
    Jump,
    /// `rd, imm`, a jump
    JumpIf,
    /// `rd, rs, imm`, a jump
    JumpBelow,
}

// Which fields a shape names. Without an access it is of one byte.
#[derive(Clone, Copy)]
pub(crate) struct Named {
    pub rd: bool,
    pub rs: bool,
    pub imm: bool,
    // Of how many bytes an access is at most.
    pub most: u8,
}

impl Shape {
    // The fields that it names.
    pub(crate) fn named(self) -> Named
        ensures { result ≡ named self }
    {
        let (rd, rs, imm, most) = match self {
            Shape::Alone => (false, false, false, 1),
            Shape::Immediate | Shape::High | Shape::JumpIf => (true, false, true, 1),
            Shape::Pair => (true, true, false, 1),
            Shape::Memory => (true, true, true, 8),
            Shape::PortRead | Shape::PortWrite => (true, true, true, 4),
            Shape::Destination => (true, false, false, 1),
            Shape::Source => (false, true, false, 1),
            Shape::Jump => (false, false, true, 1),
            Shape::JumpBelow => (true, true, true, 1),
        };
        Named { rd, rs, imm, most }
    }
}

// A row. Its number is its index in the table: it is written out for the reader, and proved to agree.
#[derive(Clone, Copy)]
struct Row {
    number: u8,
    opcode: Opcode,
    // Its word in a source.
    word: &'static str,
    // The fields of its instructions.
    shape: Shape,
}

macro_rules! row {
    ($number:expr, $opcode:ident, $word:expr, $shape:ident) => {
        Row {
            number: $number,
            opcode: Opcode::$opcode,
            word: $word,
            shape: Shape::$shape,
        }
    };
}

/// The table, by number.
static ROWS: [Row; 28] = [
    row!(0x00, Nop, "NOP", Alone),
    row!(0x01, Li, "LI", Immediate),
    row!(0x02, Lih, "LIH", High),
    row!(0x03, Mov, "MOV", Pair),
    row!(0x04, Add, "ADD", Pair),
    row!(0x05, Sub, "SUB", Pair),
    row!(0x06, And, "AND", Pair),
    row!(0x07, Or, "OR", Pair),
    row!(0x08, Xor, "XOR", Pair),
    row!(0x09, Shl, "SHL", Pair),
    row!(0x0a, Shr, "SHR", Pair),
    row!(0x0b, Load, "LOAD", Memory),
    row!(0x0c, Store, "STORE", Memory),
    row!(0x0d, Jmp, "JMP", Jump),
    row!(0x0e, Jz, "JZ", JumpIf),
    row!(0x0f, Jnz, "JNZ", JumpIf),
    row!(0x10, Jb, "JB", JumpBelow),
    row!(0x11, In, "IN", PortRead),
    row!(0x12, Out, "OUT", PortWrite),
    row!(0x13, Rdmsr, "RDMSR", Pair),
    row!(0x14, Wrmsr, "WRMSR", Pair),
    row!(0x15, Rdtsc, "RDTSC", Destination),
    row!(0x16, Vmcall, "VMCALL", Source),
    row!(0x17, Hlt, "HLT", Alone),
    row!(0x18, Sti, "STI", Alone),
    row!(0x19, Cli, "CLI", Alone),
    row!(0x1a, Setv, "SETV", Source),
    row!(0x1b, Reti, "RETI", Alone),
];

// The row of this number among rows.
fn row_in(rows: &[Row], number: u8) -> Option<Row>
    ensures { result ≡ slice_get rows.now number }
{
    rows.get(usize::from(number)).copied()
}

fn opcode_in(rows: &[Row], number: u8) -> Option<Opcode>
    requires { AreRows rows.now }
    ensures { result ≡ opcode_at number }
{
    let row = row_in(rows, number)?;
    Some(row.opcode)
}

// The row with this word among rows.
fn row_with(rows: &[Row], word: &[u8]) -> Option<Row>
    ensures { result ≡ find (λ r. bytes_eq r.word.now word.now) rows.now }
{
    rows.iter().copied().find(|row| row.word.as_bytes() == word)
}

fn opcode_with(rows: &[Row], word: &[u8]) -> Option<Opcode>
    requires { AreRows rows.now }
    ensures { result ≡ opcode_with word.now }
{
    let row = row_with(rows, word)?;
    Some(row.opcode)
}

impl Opcode {
    // The opcode of this number.
    pub(crate) fn at(number: u8) -> Option<Opcode>
        ensures { result ≡ opcode_at number }
    {
        opcode_in(&ROWS, number)
    }

    /// The opcode that a word is.
    pub fn with(word: &[u8]) -> Option<Opcode>
        ensures { result ≡ opcode_with word.now }
    {
        opcode_with(&ROWS, word)
    }

    #[tactic(auto, unfolding(crate::specs::GuestIsa::row_of))]
    fn row(self) -> Row
        ensures { row_shown result ≡ row_of self }
    {
        ROWS[self as usize]
    }

    // Its number.
    pub(crate) fn number(self) -> u8
        ensures { result ≡ number_of self }
    {
        self.row().number
    }

    /// Its word in a source.
    pub fn word(self) -> &'static str
        ensures word { result.now ≡ word_of self }
        ensures short { length result.now ≤ 6 }
    {
        self.row().word
    }

    /// Which fields its instructions have.
    pub fn shape(self) -> Shape
        ensures { result ≡ shape_of self }
    {
        self.row().shape
    }
}
