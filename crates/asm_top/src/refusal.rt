//! Why a source is refused: the reason of the assembler's own why a command isn't done.
ghost use Rattle.std.specs.Prelude.{◌≡◌};
ghost use Rattle.muen_num.specs.Pieces.{whole};
ghost use Rattle.muen_outside.specs.Puts.{Puts};
ghost use Rattle.command_shell.specs.Texts.{error_line};
ghost use Rattle.asm_top.specs.Refusals.{refusal_status, refusal_text};

use crate::status::{AssemblerStatus, Status};
use asm_text::{SourceFault, Want};
use command_shell::{Reason, put_error_line};
use itoa::Buffer;
use muen_num::Pieces;
use muen_outside::{Sink, SinkFault};

/// Where a source is refused, and what is wanted there. Lines and columns are counted from 1; a column is one of bytes.
#[derive(Clone, Copy)]
pub(crate) enum Refusal<'a> {
    /// At this place of a source that stands alone.
    Alone {
        line: u64,
        column: u64,
        want: Want,
    },
    /// At this place of the file of this name: of names, or of a source behind names.
    In {
        file: &'a str,
        line: u64,
        column: u64,
        want: Want,
    },
}

// The text in pieces.
fn pieces<'a>(refusal: Refusal<'a>, one: &'a mut Buffer, two: &'a mut Buffer) -> Pieces<'a>
    ensures { whole result ≡ refusal_text refusal.entry }
{
    match refusal {
        Refusal::Alone { line, column, want } => {
            SourceFault::At { line, column, want }.pieces(one, two)
        }
        Refusal::In {
            file,
            line,
            column,
            want,
        } => {
            let line = one.format(line);
            let column = two.format(column);
            (
                "file ",
                file,
                ", line ",
                line,
                ", column ",
                column,
                ": ",
                want.as_str(),
            )
                .into()
        }
    }
}

impl Reason for Refusal<'_> {
    type Status = AssemblerStatus;

    ghost text = { refusal_text };

    ghost status = { refusal_status };

    fn status(&self) -> Status {
        Status::Own(AssemblerStatus::SourceRefused)
    }

    fn put_line<E: Sink>(&self, program: &str, err: &mut E) -> Result<(), SinkFault> {
        let mut one = Buffer::new();
        let mut two = Buffer::new();
        put_error_line(program, &pieces(*self, &mut one, &mut two), err)
    }
}
