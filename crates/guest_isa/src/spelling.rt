// The bytes of an instruction.
ghost use Rattle.std.specs.Prelude.{◌≡◌, ◌<◌, [], ◌∷◌};
ghost use Rattle.std.specs.Int.{w32, from_le_bytes, to_le_bytes};
ghost use Rattle.std.specs.Int.RustNames.{FitsSigned};
ghost use Rattle.guest_isa.specs.GuestIsa.{decode_of, encoding_of, size_of, code_of, AreValid, AreSpelled, IsValid};

use crate::instr::Instr;
use crate::opcode::Opcode;
use muen_num::AccessSize;

// The fields of the eight bytes of an instruction.
#[derive(Clone, Copy)]
struct Fields {
    opcode: u8,
    rd: u8,
    rs: u8,
    size: u8,
    zero: u8,
    imm: u32,
}

// The size of an access, by its code.
fn size_of(code: u8) -> Option<AccessSize>
    ensures { result ≡ size_of code }
{
    match code {
        0 => Some(AccessSize::One),
        1 => Some(AccessSize::Two),
        2 => Some(AccessSize::Four),
        3 => Some(AccessSize::Eight),
        _ => None,
    }
}

// The code of a size.
fn code_of(size: AccessSize) -> u8
    ensures { result ≡ code_of size }
{
    match size {
        AccessSize::One => 0,
        AccessSize::Two => 1,
        AccessSize::Four => 2,
        AccessSize::Eight => 3,
    }
}

// The number of four bytes, lowest first.
fn word(a: u8, b: u8, c: u8, d: u8) -> u32
    ensures word { result ≡ from_le_bytes w32 (a ∷ b ∷ c ∷ d ∷ []) }
    ensures bytes { to_le_bytes w32 result ≡ a ∷ b ∷ c ∷ d ∷ [] }
{
    u32::from_le_bytes([a, b, c, d])
}

impl Fields {
    ghost use Rattle.guest_isa.specs.GuestIsa.{fields_of, fields_for, spelled, instruction_of};

    // The fields of eight bytes.
    fn of(b: [u8; 8]) -> Fields
        ensures fields { result ≡ fields_of b }
        ensures bytes { spelled result ≡ b }
        ensures rd { result.rd < 16 }
        ensures rs { result.rs < 16 }
    {
        Fields {
            opcode: b[0],
            rd: b[1] / 16,
            rs: b[1] % 16,
            size: b[2],
            zero: b[3],
            imm: word(b[4], b[5], b[6], b[7]),
        }
    }

    // The instruction of the table that has these fields.
    fn instruction(self) -> Option<Instr>
        requires rd { self.rd < 16 }
        requires rs { self.rs < 16 }
        ensures instruction { result ≡ instruction_of self }
        ensures valid { AreValid result }
    {
        let i = Instr {
            opcode: Opcode::at(self.opcode)?,
            rd: self.rd,
            rs: self.rs,
            size: size_of(self.size)?,
            imm: self.imm.cast_signed(),
        };
        if self.zero == 0 && i.is_in_row() {
            Some(i)
        } else {
            None
        }
    }

    // The fields that spell an instruction.
    fn of_instruction(i: &Instr) -> Fields
        ensures fields { result ≡ fields_for i.now }
        ensures fits { FitsSigned w32 i.now.imm }
    {
        let Instr {
            opcode,
            rd,
            rs,
            size,
            imm,
        } = *i;
        Fields {
            opcode: opcode.number(),
            rd,
            rs,
            size: code_of(size),
            zero: 0,
            imm: imm.cast_unsigned(),
        }
    }

    // The eight bytes of the fields.
    fn bytes(self) -> [u8; 8]
        requires rd { self.rd < 16 }
        requires rs { self.rs < 16 }
        ensures { result ≡ spelled self }
    {
        let imm = self.imm.to_le_bytes();
        [
            self.opcode,
            self.rd * 16 + self.rs,
            self.size,
            self.zero,
            imm[0],
            imm[1],
            imm[2],
            imm[3],
        ]
    }
}

/// The instruction that eight bytes spell: opcode; `rd` in the high and `rs` in the low nibble; a
/// size code (0 to 3 for 1, 2, 4 and 8 bytes; 0 to 2 at a port); zero; a signed little-endian
/// immediate. `None` exactly where they are outside the table, as with a field that is set though
/// the instruction has none. Each instruction has one spelling.
#[tactic(auto, unfolding(crate::specs::GuestIsa::decode_of))]
pub fn decode(b: [u8; 8]) -> Option<Instr>
    ensures instruction { result ≡ decode_of b }
    ensures valid { AreValid result }
    ensures spelled { AreSpelled result b }
{
    Fields::of(b).instruction()
}

/// The eight bytes that spell an instruction, 0 in each field that it has none of. `decode` gives
/// the instruction back.
#[tactic(auto, unfolding(crate::specs::GuestIsa::encoding_of))]
pub fn encode(i: &Instr) -> [u8; 8]
    requires { IsValid i.now }
    ensures bytes { result ≡ encoding_of i.now }
    ensures decodes { decode_of result ≡ Some i.now }
{
    Fields::of_instruction(i).bytes()
}
