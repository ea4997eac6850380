//! The code of the subjects.
ghost use Rattle.std.specs.Prelude.{◌≡◌, ◌+◌, ◌++◌, pos, IfOk, OnOk};
ghost use Rattle.std.specs.List.{All, flat_map};
ghost use Rattle.guest_isa.specs.GuestIsa.{IsValid, encoding_of, instruction_with};
ghost use Rattle.generated_system.specs.System.{code_of, polling as polling_of};

use guest_isa::{Instr, Opcode, encode};
use muen_num::AccessSize;
use std::alloc::{AllocError, Global};

// Appends the bytes of instructions.
fn add_code(bytes: &mut Vec<u8>, program: &[Instr]) -> Result<(), AllocError>
    requires { All IsValid program.now }
    ensures { OnOk result (bytes.new.items ≡ bytes.old.items ++ flat_map encoding_of program.now) }
{
    for instruction in program {
        bytes.extend_from_slice(&encode(instruction))?;
    }
    Ok(())
}

// Loads what a subject adds to what came.
fn own_number(number: u16, subject: u8) -> Instr
    ensures instruction { result ≡ instruction_with Opcode.Li 1 0 AccessSize.One (pos (number + subject)) }
    ensures valid { IsValid result }
{
    let own = number as u32 + subject as u32;
    Instr::new(Opcode::Li, 1, 0, AccessSize::One, own as i32)
}

// What a subject does once in each round: the first reads the device's port.
fn polling(subject: u8) -> Instr
    ensures instruction { result ≡ polling_of subject }
    ensures valid { IsValid result }
{
    if subject == 0 {
        Instr::new(Opcode::In, 9, 0, AccessSize::One, 16)
    } else {
        Instr::new(Opcode::Nop, 0, 0, AccessSize::One, 0)
    }
}

// The code of a subject. It goes round, and writes on what came together with its own number; a call
// tells the next subject. Behind that are the handlers of vectors 40 and 41.
#[tactic(auto, unfolding(guest_isa::specs::GuestIsa::row_of))]
pub fn code(alloc: Global, number: u16, subject: u8) -> Result<Vec<u8>, AllocError>
    ensures { IfOk result (λ v. v.items ≡ code_of number subject) }
{
    let mut bytes = Vec::new(alloc);
    add_code(
        &mut bytes,
        &[
            own_number(number, subject),
            Instr {
                opcode: Opcode::Li,
                rd: 2,
                rs: 0,
                size: AccessSize::One,
                imm: 0x60_1000,
            },
            Instr {
                opcode: Opcode::Li,
                rd: 3,
                rs: 0,
                size: AccessSize::One,
                imm: 0x60_0000,
            },
            Instr {
                opcode: Opcode::Li,
                rd: 4,
                rs: 0,
                size: AccessSize::One,
                imm: 1,
            },
            Instr {
                opcode: Opcode::Li,
                rd: 5,
                rs: 0,
                size: AccessSize::One,
                imm: 0x40_0000,
            },
            Instr {
                opcode: Opcode::Setv,
                rd: 0,
                rs: 5,
                size: AccessSize::One,
                imm: 0,
            },
            Instr {
                opcode: Opcode::Sti,
                rd: 0,
                rs: 0,
                size: AccessSize::One,
                imm: 0,
            },
            Instr {
                opcode: Opcode::Load,
                rd: 6,
                rs: 2,
                size: AccessSize::Eight,
                imm: 0,
            },
            Instr {
                opcode: Opcode::Add,
                rd: 1,
                rs: 6,
                size: AccessSize::One,
                imm: 0,
            },
            Instr {
                opcode: Opcode::Store,
                rd: 1,
                rs: 3,
                size: AccessSize::Eight,
                imm: 0,
            },
            Instr {
                opcode: Opcode::Vmcall,
                rd: 0,
                rs: 4,
                size: AccessSize::One,
                imm: 0,
            },
            polling(subject),
            Instr {
                opcode: Opcode::Jmp,
                rd: 0,
                rs: 0,
                size: AccessSize::One,
                imm: -40,
            },
        ],
    )?;
    add_code(
        &mut bytes,
        &[Instr {
            opcode: Opcode::Nop,
            rd: 0,
            rs: 0,
            size: AccessSize::One,
            imm: 0,
        }; 27],
    )?;
    add_code(
        &mut bytes,
        &[
            Instr {
                opcode: Opcode::Add,
                rd: 7,
                rs: 4,
                size: AccessSize::One,
                imm: 0,
            },
            Instr {
                opcode: Opcode::Reti,
                rd: 0,
                rs: 0,
                size: AccessSize::One,
                imm: 0,
            },
        ],
    )?;
    Ok(bytes)
}
