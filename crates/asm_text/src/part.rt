//! What stands behind an instruction's word: parts, one behind another.
ghost use Rattle.std.specs.Prelude.{◌≡◌, ◌≤◌, length};
ghost use Rattle.asm_text.specs.Parts.{parts_of};

use Part::{At, Comma, Displacement, Imm, Port, PortSize, Rd, Rs, Size, To};
use guest_isa::Shape;

/// A part of what stands behind an instruction's word.
#[derive(Clone, Copy, Debug)]
pub enum Part {
    /// The register `rd`.
    Rd,
    /// The register `rs`.
    Rs,
    /// A sum: the immediate.
    Imm,
    /// What is added to a register: the immediate, or nothing for 0.
    Displacement,
    /// A size of access.
    Size,
    /// A size of access of at most four bytes.
    PortSize,
    Comma,
    /// `at`
    At,
    /// `to`
    To,
    /// `port`
    Port,
}

/// The parts of each shape.
pub fn parts_of(shape: Shape) -> &'static [Part]
    ensures parts { result.now ≡ parts_of shape }
    ensures few { length result.now ≤ 7 }
{
    match shape {
        Shape::Alone => &[],
        Shape::Immediate | Shape::High | Shape::JumpIf => &[Rd, Comma, Imm],
        Shape::Pair => &[Rd, Comma, Rs],
        Shape::Memory => &[Rd, Comma, Size, At, Rs, Displacement],
        Shape::PortRead => &[Rd, Comma, PortSize, At, Port, Rs, Displacement],
        Shape::PortWrite => &[Rd, Comma, PortSize, To, Port, Rs, Displacement],
        Shape::Destination => &[Rd],
        Shape::Source => &[Rs],
        Shape::Jump => &[Imm],
        Shape::JumpBelow => &[Rd, Comma, Rs, Comma, Imm],
    }
}
