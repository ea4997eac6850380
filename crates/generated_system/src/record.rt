//! The text of the device record.
ghost use Rattle.std.specs.Prelude.{◌≡◌, ◌++◌, ◌<◌, ◌≤◌, [], ◌∷◌, map, reverse, decimal, IfOk, OnOk};
ghost use Rattle.std.specs.List.{flat_map};
ghost use Rattle.muen_num.specs.Range.{numbers_below};
ghost use Rattle.generated_system.specs.RecordText.{irq_line_text, lines_in, orders_in, generated_port_line, record_text, with_line_feed};

use itoa::Buffer;
use std::alloc::{AllocError, Global};

// Appends a number in decimal digits.
fn add_number(text: &mut Vec<u8>, n: u32) -> Result<(), AllocError>
    ensures { OnOk result (text.new.items ≡ text.old.items ++ decimal n) }
{
    let mut buffer = Buffer::new();
    text.extend_from_slice(buffer.format(n).as_bytes())?;
    Ok(())
}

// Appends the line by which the device's port has this value from a tick on.
#[tactic(auto, using(crate::proofs::Lines::port_text))]
fn add_port(text: &mut Vec<u8>, tick: u32, value: u32) -> Result<(), AllocError>
    ensures { OnOk result (text.new.items ≡ text.old.items ++ with_line_feed (generated_port_line tick value)) }
{
    text.extend_from_slice(b"port ")?;
    add_number(text, tick)?;
    text.extend_from_slice(b" dev 16 ")?;
    add_number(text, value)?;
    text.extend_from_slice(b"\n")?;
    Ok(())
}

// Appends the line by which the device's interrupt is raised in a tick.
#[tactic(auto, using(crate::proofs::Lines::irq_text))]
fn add_irq(text: &mut Vec<u8>, tick: u32) -> Result<(), AllocError>
    ensures { OnOk result (text.new.items ≡ text.old.items ++ with_line_feed (irq_line_text tick)) }
{
    text.extend_from_slice(b"irq ")?;
    add_number(text, tick)?;
    text.extend_from_slice(b" dev t\n")?;
    Ok(())
}

// So many CPUs, from the last to the first, each behind a blank.
fn descending(cpus: u16) -> &'static str
    requires some { 1 ≤ cpus }
    requires few { cpus ≤ 4 }
    ensures { result.now ≡ flat_map (λ word. 32 ∷ word) (map decimal (reverse (numbers_below cpus))) }
{
    match cpus {
        1 => " 0",
        2 => " 1 0",
        3 => " 2 1 0",
        _ => " 3 2 1 0",
    }
}

// Appends the order of the CPUs, if the j-th hundredth tick is a thousandth.
#[tactic(auto, using(crate::proofs::Lines::orders))]
fn add_order(text: &mut Vec<u8>, cpus: u16, j: u32) -> Result<(), AllocError>
    requires some { 1 ≤ cpus }
    requires few { cpus ≤ 4 }
    requires ticks { j < 200 }
    ensures { OnOk result (text.new.items ≡ text.old.items ++ flat_map with_line_feed (orders_in cpus j)) }
{
    if j % 10 == 0 {
        text.extend_from_slice(b"order ")?;
        add_number(text, 100 * j)?;
        text.extend_from_slice(descending(cpus).as_bytes())?;
        text.extend_from_slice(b"\n")?;
    }
    Ok(())
}

// Appends the lines of the j-th hundredth tick.
#[tactic(auto, using(crate::proofs::Lines::lines_text))]
fn add_lines(text: &mut Vec<u8>, number: u16, j: u32) -> Result<(), AllocError>
    requires { j < 200 }
    ensures { OnOk result (text.new.items ≡ text.old.items ++ flat_map with_line_feed (lines_in number j)) }
{
    add_port(text, 100 * j, (j + number as u32) % 256)?;
    add_irq(text, 100 * j)?;
    add_order(text, 1 + number % 4, j)
}

/// The text of the record.
#[tactic(auto, using(crate::proofs::Lines::whole))]
pub fn record(alloc: Global, number: u16) -> Result<Vec<u8>, AllocError>
    ensures { IfOk result (λ v. v.items ≡ record_text number) }
{
    let mut text = Vec::new(alloc);
    for j in 0..200 {
        add_lines(&mut text, number, j)?;
    }
    text.extend_from_slice(b"end 20000\n")?;
    Ok(text)
}
