//! Codes of an image, read and written.
ghost use Rattle.std.specs.Prelude.{◌≡◌, [], ◌∷◌};
ghost use Rattle.binary_form.specs.Form.{Form, Gives};
ghost use Rattle.image_pack.specs.Codes.{mark_bytes, span_kind_of, kind_code, is_device, is_own, part_code, part_name, part_of, plain_part, is_part, mode_of, mode_code, is_switch, is_vector, vector_of, vector_code, event_of, event_in, event_bytes, target_of, subject_code, irq_vector_code, is_target_code};
ghost use Rattle.image_pack.specs.Image.{mark, kind_byte, event};

use crate::outline::Header;
use crate::parts::{EventPart, SpanKind};
use binary_form::reading::{bad, short};
use binary_form::{Field, FormError};
use muen_num::limits::FIRST_VECTOR;
use muen_num::{EventMode, IrqTarget, Name, TagPart};

/// The number in place of a subject's that stands for nobody.
const NOBODY: u8 = 255;

/// The bytes that an image begins with, without and with the span of tau0.
#[tactic(auto, unfolding(crate::specs::Codes::mark_bytes))]
pub(crate) fn mark(has_tau0: bool) -> &'static [u8]
    ensures { result.now ≡ mark_bytes has_tau0 }
{
    if has_tau0 { b"MUENIMG2" } else { b"MUENIMG1" }
}

/// Whether the span of tau0 is named, by the first eight bytes.
#[tactic(auto, unfolding(binary_form::specs::Form::coded, binary_form::specs::Form::coded_at, crate::specs::Codes::mark_in))]
pub(crate) fn mark_of(bytes: &[u8]) -> Result<(bool, &[u8]), FormError>
    ensures { Gives (λ x. (x.0, x.1.now)) result (mark.read bytes.now) }
{
    if bytes.len() < 8 {
        return Err(short(bytes));
    }
    let (front, rest) = bytes.split_at(8);
    if front == b"MUENIMG1".as_slice() {
        return Ok((false, rest));
    }
    if front == b"MUENIMG2".as_slice() {
        return Ok((true, rest));
    }
    Err(bad(bytes, Field::Magic))
}

#[tactic(auto, unfolding(crate::specs::Codes::span_kind_of))]
fn kind_of(code: u8) -> Option<SpanKind>
    ensures { result ≡ span_kind_of code }
{
    match code {
        0 => Some(SpanKind::Own),
        1 => Some(SpanKind::Channel),
        2 => Some(SpanKind::Provided),
        3 => Some(SpanKind::Kernel),
        4 => Some(SpanKind::Device),
        _ => None,
    }
}

impl SpanKind {
    // Its byte in an image.
    pub(crate) fn code(self) -> u8
        ensures { result ≡ kind_code self }
    {
        match self {
            SpanKind::Own => 0,
            SpanKind::Channel => 1,
            SpanKind::Provided => 2,
            SpanKind::Kernel => 3,
            SpanKind::Device => 4,
        }
    }

    /// Whether it is a device's memory, which has no bytes in an image.
    pub fn is_device(self) -> bool
        ensures { result ≡ is_device self }
    {
        matches!(self, SpanKind::Device)
    }

    /// Whether it is a region of the policy.
    pub fn is_own(self) -> bool
        ensures { result ≡ is_own self }
    {
        matches!(self, SpanKind::Own)
    }
}

/// The kind of a span, by its byte.
#[tactic(auto, unfolding(binary_form::specs::Form::coded, binary_form::specs::Form::coded_at, crate::specs::Codes::kind_in))]
pub(crate) fn kind_byte_of(bytes: &[u8]) -> Result<(SpanKind, &[u8]), FormError>
    ensures { Gives (λ x. (x.0, x.1.now)) result (kind_byte.read bytes.now) }
{
    match bytes {
        [] => Err(short(bytes)),
        [code, rest @ ..] => match kind_of(*code) {
            Some(kind) => Ok((kind, rest)),
            None => Err(bad(bytes, Field::Kind)),
        },
    }
}

/// The byte of a part of an owner.
pub(crate) fn part_code(part: &TagPart) -> u8
    ensures { result ≡ part_code part.now }
{
    match part {
        TagPart::Whole => 0,
        TagPart::Named(_) => 1,
        TagPart::State => 2,
        TagPart::Ept => 3,
        TagPart::Iobm => 4,
        TagPart::Msrbm => 5,
        TagPart::Msrs => 6,
    }
}

/// The name of a part that has one.
pub(crate) fn part_name(part: &TagPart) -> Option<Name>
    ensures { result ≡ part_name part.now }
{
    match part {
        TagPart::Named(name) => Some(*name),
        _ => None,
    }
}

#[tactic(auto, unfolding(crate::specs::Codes::plain_part))]
fn plain_part(code: u8) -> TagPart
    ensures { result ≡ plain_part code }
{
    match code {
        0 => TagPart::Whole,
        2 => TagPart::State,
        3 => TagPart::Ept,
        4 => TagPart::Iobm,
        5 => TagPart::Msrbm,
        _ => TagPart::Msrs,
    }
}

/// A part, by its byte and its name.
pub(crate) fn part_of(code: u8, name: Option<Name>) -> TagPart
    ensures { result ≡ part_of code name }
{
    match name {
        Some(name) => TagPart::Named(name),
        None => plain_part(code),
    }
}

/// Whether a span of a kind may be the part with this byte.
pub(crate) fn is_part(kind: SpanKind, code: u8) -> bool
    ensures { result ≡ is_part kind code }
{
    match kind {
        SpanKind::Own | SpanKind::Channel => code == 0,
        SpanKind::Provided | SpanKind::Device => code == 1,
        SpanKind::Kernel => 2 <= code && code <= 6,
    }
}

#[tactic(auto, unfolding(crate::specs::Codes::mode_of))]
fn mode_of(code: u8) -> Option<EventMode>
    ensures { result ≡ mode_of code }
{
    match code {
        1 => Some(EventMode::Asap),
        2 => Some(EventMode::Async),
        3 => Some(EventMode::Own),
        4 => Some(EventMode::Switch),
        _ => None,
    }
}

fn mode_code(mode: EventMode) -> u8
    ensures { result ≡ mode_code mode }
{
    match mode {
        EventMode::Asap => 1,
        EventMode::Async => 2,
        EventMode::Own => 3,
        EventMode::Switch => 4,
    }
}

fn is_switch(mode: EventMode) -> bool
    ensures { result ≡ is_switch mode }
{
    matches!(mode, EventMode::Switch)
}

fn is_vector(mode: EventMode, code: u8) -> bool
    ensures { result ≡ is_vector mode code }
{
    u64::from(code) >= FIRST_VECTOR || (code == 0 && is_switch(mode))
}

fn vector_of(code: u8) -> Option<u8>
    ensures { result ≡ vector_of code }
{
    if code == 0 { None } else { Some(code) }
}

fn vector_code(vector: Option<u8>) -> u8
    ensures { result ≡ vector_code vector }
{
    match vector {
        None => 0,
        Some(vector) => vector,
    }
}

#[tactic(auto, unfolding(crate::specs::Codes::event_of))]
fn event_of(subjects: u8, target: u8, vector: u8, mode: EventMode) -> Option<Option<EventPart>>
    ensures { result ≡ event_of subjects target vector mode }
{
    if target < subjects && is_vector(mode, vector) {
        Some(Some(EventPart {
            mode,
            target,
            vector: vector_of(vector),
        }))
    } else {
        None
    }
}

// What four bytes say of an event, if they may stand there.
#[tactic(auto, unfolding(crate::specs::Codes::event_in))]
fn event_in(subjects: u8, mode: u8, target: u8, vector: u8, zero: u8) -> Option<Option<EventPart>>
    ensures { result ≡ event_in subjects (mode ∷ target ∷ vector ∷ zero ∷ []) }
{
    if zero != 0 {
        return None;
    }
    if mode == 0 {
        return if target == 0 && vector == 0 {
            Some(None)
        } else {
            None
        };
    }
    event_of(subjects, target, vector, mode_of(mode)?)
}

/// What an event of four bytes says.
#[tactic(auto, unfolding(binary_form::specs::Form::coded, binary_form::specs::Form::coded_at, crate::specs::Image::event))]
pub(crate) fn event_at<'a>(
    header: &Header,
    bytes: &'a [u8],
) -> Result<(Option<EventPart>, &'a [u8]), FormError>
    ensures { Gives (λ x. (x.0, x.1.now)) result ((event header.now 0).read bytes.now) }
{
    if bytes.len() < 4 {
        return Err(short(bytes));
    }
    let (front, rest) = bytes.split_at(4);
    match event_in(header.subjects, front[0], front[1], front[2], front[3]) {
        Some(event) => Ok((event, rest)),
        None => Err(bad(bytes, Field::Event)),
    }
}

/// The four bytes of an event.
pub(crate) fn event_bytes(event: &Option<EventPart>) -> [u8; 4]
    ensures { result ≡ event_bytes event.now }
{
    match event {
        None => [0, 0, 0, 0],
        Some(event) => [
            mode_code(event.mode),
            event.target,
            vector_code(event.vector),
            0,
        ],
    }
}

/// Whom an IRQ reaches, by the numbers of the subject and of the vector.
pub(crate) fn target_of(subject: u8, vector: u8) -> Option<IrqTarget>
    ensures { result ≡ target_of subject vector }
{
    if subject == NOBODY {
        None
    } else {
        Some(IrqTarget { subject, vector })
    }
}

/// The number that stands for the subject that an IRQ reaches.
pub(crate) fn subject_code(target: &Option<IrqTarget>) -> u8
    ensures { result ≡ subject_code target.now }
{
    match target {
        None => NOBODY,
        Some(target) => target.subject,
    }
}

/// The number that stands for its vector.
pub(crate) fn irq_vector_code(target: &Option<IrqTarget>) -> u8
    ensures { result ≡ irq_vector_code target.now }
{
    match target {
        None => 0,
        Some(target) => target.vector,
    }
}

/// Whether an IRQ may have these numbers, among so many subjects.
pub(crate) fn is_target(subjects: u8, subject: u8, vector: u8) -> bool
    ensures { result ≡ is_target_code subjects subject vector }
{
    if subject == NOBODY {
        vector == 0
    } else {
        subject < subjects && u64::from(vector) >= FIRST_VECTOR
    }
}
