// Instructions, and what they ask for.
ghost use Rattle.std.specs.Prelude.{◌≡◌, ◌<◌};
ghost use Rattle.guest_isa.specs.GuestIsa.{IsValid, instruction_with, is_in_row};

use crate::opcode::Opcode;
use muen_num::AccessSize;
use state_page::SubjectState;

/// An instruction. Register numbers are below 16. A field that its row of the table doesn't name is 0,
/// and of a size one byte. Arithmetic and addresses wrap at 2^64; immediates are sign-extended. Each
/// instruction but a jump that is taken and `Reti` goes on at the next eight bytes.
#[derive(Clone, Copy, Debug)]
pub struct Instr {
    pub opcode: Opcode,
    pub rd: u8,
    pub rs: u8,
    pub size: AccessSize,
    pub imm: i32,
}

impl Instr {
    /// The instruction with these fields, as far as its row names them: others are 0, and a size of
    /// more bytes than the row allows is of one.
    #[tactic(auto, using(crate::proofs::Spelled::valid_with))]
    pub fn new(opcode: Opcode, rd: u8, rs: u8, size: AccessSize, imm: i32) -> Instr
        ensures instruction { result ≡ instruction_with opcode rd rs size imm }
        ensures valid { rd < 16 → rs < 16 → IsValid result }
    {
        let named = opcode.shape().named();
        Instr {
            opcode,
            rd: if named.rd { rd } else { 0 },
            rs: if named.rs { rs } else { 0 },
            size: if size.bytes() <= named.most {
                size
            } else {
                AccessSize::One
            },
            imm: if named.imm { imm } else { 0 },
        }
    }

    // Whether it has no field that its row doesn't name.
    pub(crate) fn is_in_row(&self) -> bool
        ensures { result ≡ is_in_row self.now }
    {
        let named = self.opcode.shape().named();
        (named.rd || self.rd == 0)
            && (named.rs || self.rs == 0)
            && (named.imm || self.imm == 0)
            && self.size.bytes() <= named.most
    }
}

/// What an instruction asks of the machine.
#[derive(Clone, Copy, Debug)]
pub enum Wish {
    Nothing,
    /// The register was written, and holds this value.
    Set {
        reg: u8,
        value: u64,
    },
    /// The register is to be loaded, zero-extended, from this guest address.
    Load {
        reg: u8,
        addr: u64,
        size: AccessSize,
    },
    /// This value, which has so many bytes, is to be stored at this guest address.
    Store {
        addr: u64,
        size: AccessSize,
        value: u64,
    },
    /// The register is to be loaded, zero-extended, with the input at this port.
    PortIn {
        reg: u8,
        port: u16,
        size: AccessSize,
    },
    /// This value, which has so many bytes, is to be written to this port.
    PortOut {
        port: u16,
        size: AccessSize,
        value: u32,
    },
    /// The register is to be loaded from the machine-specific register of this index.
    ReadMsr {
        reg: u8,
        index: u32,
    },
    /// This value is to be written to the machine-specific register of this index.
    WriteMsr {
        index: u32,
        value: u64,
    },
    /// The register is to be loaded with the tick.
    Tick {
        reg: u8,
    },
    /// The kernel is called with this number.
    Call {
        number: u64,
    },
    /// The subject halts.
    Halt,
}

/// The effect of an instruction, for clauses alone: `carry_out` makes it in place.
#[derive(Clone, Copy, Debug)]
pub struct Asked {
    /// The state after it, where its wish doesn't exit.
    pub after: SubjectState,
    pub wish: Wish,
}
