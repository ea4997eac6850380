//! Why a policy, an image, a device record or tables are refused, or don't fit one another: the reasons of the
//! program's own.
ghost use Rattle.std.specs.Prelude.{◌≡◌};
ghost use Rattle.muen_num.specs.Pieces.{whole};
ghost use Rattle.muen_outside.specs.Puts.{Puts};
ghost use Rattle.command_shell.specs.Texts.{error_line};
ghost use Rattle.dma_check.specs.declared.fault.DmaFault.TheVariants.{Tables as InTables};
ghost use Rattle.dma_top.specs.FaultTexts.{kind_word, unfit_text};
ghost use Rattle.dma_top.specs.Refusals.{policy_status, refusal_status, refusal_text};

use crate::hex_digits::HexDigits;
use crate::status::{DmaStatus, Status};
use command_shell::{Reason, put_error_line};
use dma_check::{DmaFault, FaultKind, TableFault};
use dma_tables::dma_fault_pieces;
use image_pack::ImageFault;
use image_verify::AddressDigits;
use itoa::Buffer;
use muen_num::Pieces;
use muen_outside::{Sink, SinkFault};
use record_text::RecordFault;

/// What is refused, and why.
#[derive(Drop)]
pub(crate) enum Refusal {
    /// The policy, or a content of it.
    Policy(policy_lawful::Refusal),
    /// The image.
    Image(ImageFault),
    /// The device record.
    Record(RecordFault),
    /// The tables.
    Tables(ImageFault),
    /// The image isn't sound for the policy.
    Unsound(image_verify::Fault),
    /// The tables don't fit the policy and the image.
    Unfit(DmaFault),
}

fn kind_word(kind: FaultKind) -> &'static str
    ensures { result.now ≡ kind_word kind }
{
    match kind {
        FaultKind::Outside => "not sound: outside ",
        FaultKind::Twice => "not sound: twice ",
        FaultKind::Leak => "not sound: leak ",
        FaultKind::Lacks => "not sound: lacks ",
    }
}

// The text of a fault of tables in pieces. The digits of its source and its address stand in the buffers.
fn table_fault_pieces<'a>(
    fault: &'a TableFault,
    bus: &'a mut HexDigits,
    device: &'a mut HexDigits,
    function: &'a mut Buffer,
    addr: &'a mut HexDigits,
) -> Pieces<'a>
    ensures { whole result ≡ unfit_text (InTables fault.now) }
{
    let bus = bus.format(&[fault.bus]);
    let device = device.format(&[fault.devfn / 8]);
    let function = function.format(fault.devfn % 8);
    let addr = addr.format(&fault.addr.to_be_bytes());
    (
        kind_word(fault.kind),
        bus,
        ":",
        device,
        ".",
        function,
        " ",
        addr,
    )
        .into()
}

// The line of a fault of tables.
fn put_table_fault<E: Sink>(program: &str, fault: &TableFault, err: &mut E) -> Result<(), SinkFault>
    ensures { Puts (error_line program.now (unfit_text (InTables fault.now))) (E.state err.old) (E.state err.new) result }
{
    let mut bus = HexDigits::new();
    let mut device = HexDigits::new();
    let mut function = Buffer::new();
    let mut addr = HexDigits::new();
    put_error_line(
        program,
        &table_fault_pieces(fault, &mut bus, &mut device, &mut function, &mut addr),
        err,
    )
}

// .. of what is wrong with them.
fn put_unfit<E: Sink>(program: &str, fault: &DmaFault, err: &mut E) -> Result<(), SinkFault>
    ensures { Puts (error_line program.now (unfit_text fault.now)) (E.state err.old) (E.state err.new) result }
{
    match fault {
        DmaFault::Listing { device } => {
            put_error_line(
                program,
                &("not sound: device ", device.as_str()).into(),
                err,
            )
        }
        DmaFault::Tables { fault } => put_table_fault(program, fault, err),
    }
}

fn policy_status(refusal: &policy_lawful::Refusal) -> Status
    ensures { result ≡ policy_status refusal.now }
{
    match refusal {
        policy_lawful::Refusal::NotJson
        | policy_lawful::Refusal::Shape { .. }
        | policy_lawful::Refusal::Rule { .. }
        | policy_lawful::Refusal::FileFit { .. }
        | policy_lawful::Refusal::NoRoom { .. } => Status::Own(DmaStatus::PolicyRefused),
        policy_lawful::Refusal::Missing { .. } | policy_lawful::Refusal::TooLong { .. } =>
            Status::FileMissing,
        policy_lawful::Refusal::NoMemory => Status::NoMemory,
    }
}

impl Reason for Refusal {
    type Status = DmaStatus;

    ghost text = { refusal_text };

    ghost status = { refusal_status };

    fn status(&self) -> Status {
        match self {
            Refusal::Policy(refusal) => policy_status(refusal),
            Refusal::Image(_) => Status::Own(DmaStatus::ImageRefused),
            Refusal::Record(_) => Status::Own(DmaStatus::RecordRefused),
            Refusal::Tables(_) => Status::Own(DmaStatus::TablesRefused),
            Refusal::Unsound(_) | Refusal::Unfit(_) => Status::Own(DmaStatus::NotSound),
        }
    }

    fn put_line<E: Sink>(&self, program: &str, err: &mut E) -> Result<(), SinkFault> {
        let mut one = Buffer::new();
        let mut two = Buffer::new();
        let mut digits = AddressDigits::new();
        match self {
            Refusal::Policy(refusal) => {
                put_error_line(program, &refusal.pieces(&mut one, &mut two), err)
            }
            Refusal::Image(fault) => put_error_line(program, &fault.pieces(&mut one), err),
            Refusal::Record(fault) => put_error_line(program, &fault.pieces(&mut one), err),
            Refusal::Tables(fault) => {
                put_error_line(program, &dma_fault_pieces(*fault, &mut one), err)
            }
            Refusal::Unsound(fault) => put_error_line(program, &fault.pieces(&mut digits), err),
            Refusal::Unfit(fault) => put_unfit(program, fault, err),
        }
    }
}
