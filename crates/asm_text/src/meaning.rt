//! What a statement comes to, where each name is known.
ghost use Rattle.std.specs.Prelude.{◌≡◌, ◌≤◌, ◌<◌, ◌*◌, ◌^◌, IfOk, IfSome, pos, true};
ghost use Rattle.std.specs.Int.{w32, cast_signed};
ghost use Rattle.muen_num.specs.AccessSize.{bytes_of};
ghost use Rattle.asm_text.specs.Meaning.{size_bits, distance_by, fits_in_bits, fits_signed, immediate_by, if_fits, immediate_of, integer_of, number_of, residue, signed, sum_of, sum_of_atom, sum_of_meaning};
ghost use Rattle.asm_text.specs.Ranges.{IsMagnitude, IsSmallSum, IsSum};

use crate::fault::{LineError, Want, wanted};
use crate::statement::{Atom, Integer, Meaning, Operation, Term, Value};
use guest_isa::Shape;
use muen_num::{AccessSize, Name};
use std::collections::BTreeMap;

/// A number, and of how many labels it is the sum.
#[derive(Clone, Copy, Debug)]
pub struct Sum {
    pub number: i128,
    pub labels: i128,
}

fn signed(minus: bool, n: i128) -> i128
    requires { IsMagnitude n }
    ensures value { result ≡ signed minus n }
    ensures small { IsMagnitude result }
{
    if minus { -n } else { n }
}

fn integer_of(i: Integer) -> i128
    ensures value { result ≡ integer_of i }
    ensures small { IsMagnitude result }
{
    signed(i.minus, i128::from(i.magnitude))
}

fn sum_of_meaning(meaning: Meaning) -> Sum
    ensures value { result ≡ sum_of_meaning meaning }
    ensures small { IsSmallSum result }
{
    match meaning {
        Meaning::Offset(offset) => Sum {
            number: i128::from(offset),
            labels: 1,
        },
        Meaning::Number(number) => Sum {
            number: integer_of(number),
            labels: 0,
        },
    }
}

fn sum_of_atom(names: &BTreeMap<Name, Meaning>, atom: Atom) -> Option<Sum>
    ensures value { result ≡ sum_of_atom names.now.entries atom }
    ensures small { IfSome result IsSmallSum }
{
    match atom {
        Atom::Number(n) => Some(Sum {
            number: i128::from(n),
            labels: 0,
        }),
        Atom::Name(name) => Some(sum_of_meaning(*names.get(&name)?)),
    }
}

// The sum of the terms, where each name is known.
fn sum_of(names: &BTreeMap<Name, Meaning>, terms: &[Term]) -> Result<Sum, LineError>
    ensures sum { result ≡ sum_of names.now.entries terms.now }
    ensures within { IfOk result IsSum }
{
    let mut sum = Sum {
        number: 0,
        labels: 0,
    };
    for term in terms {
        let Some(atom) = sum_of_atom(names, term.atom) else {
            return Err(wanted(term.left, Want::KnownName));
        };
        sum.number += signed(term.minus, atom.number);
        sum.labels += signed(term.minus, atom.labels);
    }
    Ok(sum)
}

// ---- numbers in so many bits

fn power(bits: u32) -> i128
    requires { bits ≤ 64 }
    ensures { result ≡ pos (2 ^ bits) }
{
    1 << bits
}

fn fits_signed(bits: u32, n: i128) -> bool
    requires low { 1 ≤ bits }
    requires high { bits ≤ 64 }
    ensures { result ≡ fits_signed bits n }
{
    let half = power(bits - 1);
    -half <= n && n < half
}

fn fits(bits: u32, n: i128) -> bool
    requires low { 1 ≤ bits }
    requires high { bits ≤ 64 }
    ensures { result ≡ fits_in_bits bits n }
{
    -power(bits - 1) <= n && n < power(bits)
}

// A number that fits, modulo 2^bits.
fn residue(bits: u32, n: i128) -> u64
    requires low { 1 ≤ bits }
    requires high { bits ≤ 64 }
    requires fits { fits_in_bits bits n ≡ true }
    ensures value { result ≡ residue bits n }
    ensures within { result < 2 ^ bits }
{
    if n < 0 {
        (n + power(bits)) as u64
    } else {
        n as u64
    }
}

// ---- instructions

// From an instruction to a label where one remains, as it is said where none does.
fn distance(sum: Sum, here: u64, left: usize) -> Result<i128, LineError>
    requires { IsSum sum }
    ensures { result ≡ distance_by sum.labels here left sum.number }
{
    match sum.labels {
        0 => Ok(sum.number),
        1 => Ok(sum.number - i128::from(here)),
        _ => Err(wanted(left, Want::Target)),
    }
}

// The number, where it fits 32 bits with its sign.
fn in_32_bits(n: i128, left: usize, want: Want) -> Result<i32, LineError>
    ensures { result ≡ if_fits (fits_signed 32 n) left want n }
{
    if fits_signed(32, n) {
        Ok(n as i32)
    } else {
        Err(wanted(left, want))
    }
}

// The number, where it fits 32 bits with its sign or without.
fn in_either(n: i128, left: usize) -> Result<i32, LineError>
    ensures { result ≡ if_fits (fits_in_bits 32 n) left Want.Range (cast_signed w32 (residue 32 n)) }
{
    if fits(32, n) {
        Ok((residue(32, n) as u32).cast_signed())
    } else {
        Err(wanted(left, Want::Range))
    }
}

// The immediate that a sum is, behind a word of this shape.
fn immediate_by(shape: Shape, here: u64, left: usize, sum: Sum) -> Result<i32, LineError>
    requires { IsSum sum }
    ensures { result ≡ immediate_by shape here left sum }
{
    match shape {
        Shape::High => in_either(sum.number, left),
        Shape::Jump | Shape::JumpIf | Shape::JumpBelow => {
            in_32_bits(distance(sum, here, left)?, left, Want::Near)
        }
        _ => in_32_bits(sum.number, left, Want::Range),
    }
}

/// The immediate of an instruction that begins here.
#[tactic(auto, unfolding(crate::specs::Meaning::immediate_of))]
pub(crate) fn immediate_of(
    names: &BTreeMap<Name, Meaning>,
    here: u64,
    operation: &Operation,
) -> Result<i32, LineError>
    ensures { result ≡ immediate_of names.now.entries here operation.now }
{
    let value = &operation.operands.value;
    let sum = sum_of(names, value.terms.items())?;
    immediate_by(operation.opcode.shape(), here, value.left, sum)
}

// ---- data

// How many bits numbers of this size have.
fn bits_of(size: AccessSize) -> u32
    ensures value { result ≡ size_bits size }
    ensures low { 1 ≤ result }
    ensures high { result ≤ 64 }
{
    8 * u32::from(size.bytes())
}

/// The number of a value in data.
pub(crate) fn number_of(
    names: &BTreeMap<Name, Meaning>,
    size: AccessSize,
    value: &Value,
) -> Result<u64, LineError>
    ensures value { result ≡ number_of names.now.entries size value.now }
    ensures within { IfOk result (λ n. n < 2 ^ (8 * bytes_of size)) }
{
    let sum = sum_of(names, value.terms.items())?;
    let bits = bits_of(size);
    if !fits(bits, sum.number) {
        return Err(wanted(value.left, Want::Range));
    }
    Ok(residue(bits, sum.number))
}
