//! The text of a chunk, spelled into a buffer: each call writes behind what stands there, and answers
//! where it ends.
ghost use Rattle.std.specs.Prelude.{◌≡◌, ◌+◌, ◌*◌, ◌≤◌, ◌∷◌, ◌++◌, [], codes, length, take};
ghost use Rattle.std.specs.Fmt.{signed_decimal};
ghost use Rattle.std.specs.List.{flat_map};
ghost use Rattle.hex.specs.Hex.{encode_lower};
ghost use Rattle.asm_listing.specs.Source.{byte_text, chunk_text, data_text, displacement_text, instruction_in, instruction_text, part_text, register_text, size_text};

use asm_text::{Part, parts_of};
use guest_isa::{Instr, decode};
use itoa::Buffer;
use muen_num::AccessSize;
use muen_num::text::{append, append_decimal8, append_decimal32};

// ---- instructions

fn append_register(out: &mut [u8], at: usize, r: u8) -> usize
    requires { at + 5 ≤ length out.old }
    ensures end { result ≤ at + 5 }
    ensures text { take result out.new ≡ take at out.old ++ (codes " " ++ register_text r) }
{
    let at = append(out, at, b" r");
    append_decimal8(out, at, r)
}

fn append_size(out: &mut [u8], at: usize, size: AccessSize) -> usize
    requires { at + 8 ≤ length out.old }
    ensures end { result ≤ at + 8 }
    ensures text { take result out.new ≡ take at out.old ++ (codes " " ++ size_text size) }
{
    match size {
        AccessSize::One => append(out, at, b" 1 byte"),
        AccessSize::Two => append(out, at, b" 2 bytes"),
        AccessSize::Four => append(out, at, b" 4 bytes"),
        AccessSize::Eight => append(out, at, b" 8 bytes"),
    }
}

fn append_signed(out: &mut [u8], at: usize, n: i32) -> usize
    requires { at + 12 ≤ length out.old }
    ensures end { result ≤ at + 12 }
    ensures text { take result out.new ≡ take at out.old ++ (codes " " ++ signed_decimal n) }
{
    let at = append(out, at, b" ");
    let mut buffer = Buffer::new();
    append(out, at, buffer.format(n).as_bytes())
}

fn append_displacement(out: &mut [u8], at: usize, n: i32) -> usize
    requires { at + 13 ≤ length out.old }
    ensures end { result ≤ at + 13 }
    ensures text { take result out.new ≡ take at out.old ++ displacement_text n }
{
    if n == 0 {
        return at;
    }
    let sign = if n < 0 { b" - " } else { b" + " };
    let at = append(out, at, sign);
    append_decimal32(out, at, n.unsigned_abs())
}

// A part of what stands behind a word.
fn append_part(out: &mut [u8], at: usize, part: Part, i: &Instr) -> usize
    requires { at + 13 ≤ length out.old }
    ensures end { result ≤ at + 13 }
    ensures text { take result out.new ≡ take at out.old ++ part_text i.now part }
{
    match part {
        Part::Rd => append_register(out, at, i.rd),
        Part::Rs => append_register(out, at, i.rs),
        Part::Imm => append_signed(out, at, i.imm),
        Part::Displacement => append_displacement(out, at, i.imm),
        Part::Size | Part::PortSize => append_size(out, at, i.size),
        Part::Comma => append(out, at, b","),
        Part::At => append(out, at, b" at"),
        Part::To => append(out, at, b" to"),
        Part::Port => append(out, at, b" port"),
    }
}

fn append_parts(out: &mut [u8], at: usize, parts: &[Part], i: &Instr) -> usize
    requires { at + 13 * length parts.now ≤ length out.old }
    ensures end { result ≤ at + 13 * length parts.now }
    ensures text { take result out.new ≡ take at out.old ++ flat_map (part_text i.now) parts.now }
{
    let mut end = at;
    for part in parts {
        end = append_part(out, end, *part, i);
    }
    end
}

#[tactic(auto, unfolding(crate::specs::Source::instruction_text))]
fn append_instruction(out: &mut [u8], at: usize, i: &Instr) -> usize
    requires { at + 97 ≤ length out.old }
    ensures end { result ≤ at + 97 }
    ensures text { take result out.new ≡ take at out.old ++ instruction_text i.now }
{
    let at = append(out, at, i.opcode.word().as_bytes());
    append_parts(out, at, parts_of(i.opcode.shape()), i)
}

// ---- data

// A byte in two digits.
fn append_byte(out: &mut [u8], at: usize, byte: u8) -> usize
    requires { at + 4 ≤ length out.old }
    ensures end { result ≡ at + 4 }
    ensures text { take result out.new ≡ take at out.old ++ byte_text byte }
{
    let mut digits = [0u8; 2];
    let _ = hex::encode_to_slice([byte], &mut digits);
    let at = append(out, at, b"0x");
    append(out, at, &digits)
}

fn append_next_byte(out: &mut [u8], at: usize, byte: u8) -> usize
    requires { at + 6 ≤ length out.old }
    ensures end { result ≡ at + 6 }
    ensures text { take result out.new ≡ take at out.old ++ (codes ", " ++ byte_text byte) }
{
    let at = append(out, at, b", ");
    append_byte(out, at, byte)
}

fn append_others(out: &mut [u8], at: usize, bytes: &[u8]) -> usize
    requires { at + 6 * length bytes.now ≤ length out.old }
    ensures end { result ≡ at + 6 * length bytes.now }
    ensures text { take result out.new ≡ take at out.old ++ flat_map (λ b. codes ", " ++ byte_text b) bytes.now }
{
    let mut end = at;
    for byte in bytes {
        end = append_next_byte(out, end, *byte);
    }
    end
}

#[tactic(auto, unfolding(crate::specs::Source::data_text))]
fn append_data(out: &mut [u8], at: usize, bytes: &[u8]) -> usize
    requires { at + 6 + 6 * length bytes.now ≤ length out.old }
    ensures end { result ≤ at + 6 + 6 * length bytes.now }
    ensures text { take result out.new ≡ take at out.old ++ data_text bytes.now }
{
    match bytes {
        [] => at,
        [first, others @ ..] => {
            let at = append(out, at, b".byte ");
            let at = append_byte(out, at, *first);
            append_others(out, at, others)
        }
    }
}

// ---- chunks

// The instruction that a chunk spells, if it spells one.
fn instruction_in(chunk: &[u8]) -> Option<Instr>
    ensures { result ≡ instruction_in chunk.now }
{
    let bytes = <[u8; 8]>::try_from(chunk).ok()?;
    decode(bytes)
}

/// Writes what the source has for a chunk.
pub(crate) fn append_chunk(out: &mut [u8], at: usize, chunk: &[u8]) -> usize
    requires short { length chunk.now ≤ 8 }
    requires room { at + 97 ≤ length out.old }
    ensures end { result ≤ at + 97 }
    ensures text { take result out.new ≡ take at out.old ++ chunk_text chunk.now }
{
    match instruction_in(chunk) {
        Some(i) => append_instruction(out, at, &i),
        None => append_data(out, at, chunk),
    }
}
