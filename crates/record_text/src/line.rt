//! The lines of a record: what the words of each kind of line say.
ghost use Rattle.std.specs.Prelude.{◌≡◌, IfErr, IfOk, MatchResult};
ghost use Rattle.record_text.specs.Remaining.{IsMiscounted, words_remaining};
ghost use Rattle.record_text.specs.Saying.{Gives, with_line_error, said};
ghost use Rattle.record_text.specs.Table.{cpu_numbers, dma_line, end_line, first_word, five, four, irq_line, kind_of, line_of_kind, mem_line, no_word, one, order_line, port_line, read_words, three};
ghost use Rattle.record_text.specs.Words.{words_of};

use crate::devices::Devices;
use crate::fault::LineWant;
use crate::number::{
    LineError, byte_of, cpu_of, hex_bytes, number, number_below, port_of, tick_of,
};
use crate::record::Input;
use crate::resolving::{resolve_dma, resolve_irq, resolve_memory, resolve_port};
use crate::words::Words;
use muen_num::Seq;
use muen_num::limits::GUEST_END;
use std::alloc::Global;

/// What a line is about.
#[derive(Clone, Copy)]
pub(crate) enum LineKind {
    Order,
    Port,
    Mem,
    Irq,
    Dma,
    End,
}

/// What a line says.
#[derive(Drop)]
pub(crate) enum Says {
    /// An input; `None` where what it names isn't there.
    Input(Option<Input>),
    /// The order of the CPUs.
    Order(Seq<u8>),
    /// The record is over.
    End,
}

/// A line of a record.
#[derive(Drop)]
pub(crate) struct RecordLine {
    pub tick: u32,
    pub says: Says,
}

// The kind of line that begins with this word.
#[tactic(auto, unfolding(crate::specs::Table::kind_of))]
fn kind_of(word: &[u8]) -> Option<LineKind>
    ensures { result ≡ kind_of word.now }
{
    if word == b"order".as_slice() {
        return Some(LineKind::Order);
    }
    if word == b"port".as_slice() {
        return Some(LineKind::Port);
    }
    if word == b"mem".as_slice() {
        return Some(LineKind::Mem);
    }
    if word == b"irq".as_slice() {
        return Some(LineKind::Irq);
    }
    if word == b"dma".as_slice() {
        return Some(LineKind::Dma);
    }
    if word == b"end".as_slice() {
        return Some(LineKind::End);
    }
    None
}

// ---- words, exactly as many

// The next word.
fn word<'a>(words: &mut Words<'a>) -> Result<&'a [u8], LineError>
    ensures ok { IfOk result (λ w. first_word (words_remaining words.old) ≡ Ok (w.now, words_remaining words.new)) }
    ensures err { IfErr result (λ e. (e ≡ LineError.Want LineWant.Count) × (first_word (words_remaining words.old) ≡ Err LineWant.Count)) }
{
    match words.next_word() {
        Some(word) => Ok(word),
        None => Err(LineError::Want(LineWant::Count)),
    }
}

// No further word.
fn no_word(mut words: Words<'_>) -> Result<(), LineError>
    ensures { result ≡ with_line_error (no_word (words_remaining words.entry)) }
{
    match words.next_word() {
        Some(_) => Err(LineError::Want(LineWant::Count)),
        None => Ok(()),
    }
}

fn one<'a>(mut words: Words<'a>) -> Result<&'a [u8], LineError>
    ensures { MatchResult result (λ w. one (words_remaining words.entry) ≡ Ok w.now) (IsMiscounted (one (words_remaining words.entry))) }
{
    let first = word(&mut words)?;
    no_word(words)?;
    Ok(first)
}

type Three<'a> = (&'a [u8], &'a [u8], &'a [u8]);

fn three<'a>(mut words: Words<'a>) -> Result<Three<'a>, LineError>
    ensures { MatchResult result (λ w. three (words_remaining words.entry) ≡ Ok (w.0.now, w.1.now, w.2.now)) (IsMiscounted (three (words_remaining words.entry))) }
{
    let first = word(&mut words)?;
    let second = word(&mut words)?;
    let third = word(&mut words)?;
    no_word(words)?;
    Ok((first, second, third))
}

type Four<'a> = (&'a [u8], &'a [u8], &'a [u8], &'a [u8]);

fn four<'a>(mut words: Words<'a>) -> Result<Four<'a>, LineError>
    ensures { MatchResult result (λ w. four (words_remaining words.entry) ≡ Ok (w.0.now, w.1.now, w.2.now, w.3.now)) (IsMiscounted (four (words_remaining words.entry))) }
{
    let first = word(&mut words)?;
    let second = word(&mut words)?;
    let third = word(&mut words)?;
    let fourth = word(&mut words)?;
    no_word(words)?;
    Ok((first, second, third, fourth))
}

type Five<'a> = (&'a [u8], &'a [u8], &'a [u8], &'a [u8], &'a [u8]);

fn five<'a>(mut words: Words<'a>) -> Result<Five<'a>, LineError>
    ensures { MatchResult result (λ w. five (words_remaining words.entry) ≡ Ok (w.0.now, w.1.now, w.2.now, w.3.now, w.4.now)) (IsMiscounted (five (words_remaining words.entry))) }
{
    let first = word(&mut words)?;
    let second = word(&mut words)?;
    let third = word(&mut words)?;
    let fourth = word(&mut words)?;
    let fifth = word(&mut words)?;
    no_word(words)?;
    Ok((first, second, third, fourth, fifth))
}

// ---- the kinds of lines

// The CPUs that the words name, each one that there is.
#[tactic(auto, using(crate::proofs::Orders::fronts))]
fn cpu_numbers(alloc: Global, cpus: u8, mut words: Words<'_>) -> Result<Seq<u8>, LineError>
    ensures { Gives (cpu_numbers cpus (words_remaining words.entry)) result }
{
    let mut order = Seq::new(alloc);
    while let Some(word) = words.next_word() {
        order.push(cpu_of(word, cpus)?)?;
    }
    Ok(order)
}

// `order T C1 .. Cn`, where there are n CPUs.
#[tactic(auto, unfolding(crate::specs::Table::order_line))]
fn order_line(
    alloc: Global,
    devices: &Devices,
    mut words: Words<'_>,
) -> Result<RecordLine, LineError>
    ensures { Gives (said devices.now (order_line devices.now.cpus (words_remaining words.entry))) result }
{
    let tick = word(&mut words)?;
    if words.count() != usize::from(devices.cpus) {
        return Err(LineError::Want(LineWant::Count));
    }
    let tick = tick_of(tick)?;
    let cpus = cpu_numbers(alloc, devices.cpus, words)?;
    Ok(RecordLine {
        tick,
        says: Says::Order(cpus),
    })
}

// `port T DEVICE PORT V`.
#[tactic(auto, unfolding(crate::specs::Table::port_line))]
fn port_line(devices: &Devices, words: Words<'_>) -> Result<RecordLine, LineError>
    ensures { result ≡ with_line_error (said devices.now (port_line (words_remaining words.entry))) }
{
    let (tick, device, port, value) = four(words)?;
    let tick = tick_of(tick)?;
    let port = port_of(port)?;
    let value = byte_of(value)?;
    let input = resolve_port(devices, device, port, value);
    Ok(RecordLine {
        tick,
        says: Says::Input(input),
    })
}

// `mem T DEVICE MEMORY OFFSET HEX`.
#[tactic(auto, unfolding(crate::specs::Table::mem_line))]
fn mem_line(alloc: Global, devices: &Devices, words: Words<'_>) -> Result<RecordLine, LineError>
    ensures { Gives (said devices.now (mem_line (words_remaining words.entry))) result }
{
    let (tick, device, memory, offset, hex) = five(words)?;
    let tick = tick_of(tick)?;
    let offset = number(offset)?;
    let bytes = hex_bytes(alloc, hex)?;
    let input = resolve_memory(devices, device, memory, offset, bytes);
    Ok(RecordLine {
        tick,
        says: Says::Input(input),
    })
}

// `irq T DEVICE IRQ`.
#[tactic(auto, unfolding(crate::specs::Table::irq_line))]
fn irq_line(devices: &Devices, words: Words<'_>) -> Result<RecordLine, LineError>
    ensures { result ≡ with_line_error (said devices.now (irq_line (words_remaining words.entry))) }
{
    let (tick, device, irq) = three(words)?;
    let tick = tick_of(tick)?;
    let input = resolve_irq(devices, device, irq);
    Ok(RecordLine {
        tick,
        says: Says::Input(input),
    })
}

// `dma T DEVICE ADDR HEX`.
#[tactic(auto, unfolding(crate::specs::Table::dma_line))]
fn dma_line(alloc: Global, devices: &Devices, words: Words<'_>) -> Result<RecordLine, LineError>
    ensures { Gives (said devices.now (dma_line (words_remaining words.entry))) result }
{
    let (tick, device, addr, hex) = four(words)?;
    let tick = tick_of(tick)?;
    let addr = number_below(addr, GUEST_END)?;
    let bytes = hex_bytes(alloc, hex)?;
    let input = resolve_dma(devices, device, addr, bytes);
    Ok(RecordLine {
        tick,
        says: Says::Input(input),
    })
}

// `end T`.
#[tactic(auto, unfolding(crate::specs::Table::end_line))]
fn end_line(devices: &Devices, words: Words<'_>) -> Result<RecordLine, LineError>
    ensures { result ≡ with_line_error (said devices.now (end_line (words_remaining words.entry))) }
{
    let tick = tick_of(one(words)?)?;
    Ok(RecordLine {
        tick,
        says: Says::End,
    })
}

// ---- lines

// A line of this kind.
#[tactic(auto, using(crate::proofs::LineErrors::line_errors))]
fn line_of_kind(
    alloc: Global,
    devices: &Devices,
    kind: LineKind,
    words: Words<'_>,
) -> Result<RecordLine, LineError>
    ensures { Gives (said devices.now (line_of_kind devices.now.cpus (Some kind) (words_remaining words.entry))) result }
{
    match kind {
        LineKind::Order => order_line(alloc, devices, words),
        LineKind::Port => port_line(devices, words),
        LineKind::Mem => mem_line(alloc, devices, words),
        LineKind::Irq => irq_line(devices, words),
        LineKind::Dma => dma_line(alloc, devices, words),
        LineKind::End => end_line(devices, words),
    }
}

/// What a line says.
#[tactic(auto, unfolding(crate::specs::Table::read_words))]
pub(crate) fn read_line(
    alloc: Global,
    devices: &Devices,
    text: &[u8],
) -> Result<RecordLine, LineError>
    ensures { Gives (said devices.now (read_words devices.now.cpus (words_of text.now))) result }
{
    let mut words = Words::of(text);
    let Some(first) = words.next_word() else {
        return Err(LineError::Want(LineWant::Word));
    };
    match kind_of(first) {
        Some(kind) => line_of_kind(alloc, devices, kind, words),
        None => Err(LineError::Want(LineWant::Word)),
    }
}
