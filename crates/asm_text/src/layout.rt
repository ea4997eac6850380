//! Where what each line says begins, and what each name stands for.
ghost use Rattle.std.specs.Prelude.{◌≡◌};
ghost use Rattle.muen_num.specs.Answers.{Answers};
ghost use Rattle.asm_text.specs.Layout.{after_line, at_start, fault_in, labelled, layout_from, source_line_at, continued_at, stated, with_name};
ghost use Rattle.asm_text.specs.Placing.{laid_out, placed_told, shown_layout, layout_standing_of};
ghost use Rattle.text_words.specs.Parts.{lines_of};

use crate::fault::{LineError, SourceFault, Want, wanted};
use crate::reading::line_of;
use crate::statement::{Label, Meaning, Placed, SourceLine, Statement};
use muen_num::limits::COMPONENT_FILE_MOST;
use muen_num::{Name, Seq};
use std::alloc::Global;
use std::collections::BTreeMap;
use text_words::first_line;

/// What each name stands for, and where the next line begins.
#[derive(Drop)]
pub(crate) struct Standing {
    pub here: u64,
    pub names: BTreeMap<Name, Meaning>,
}

impl Standing {
    // A name that is new.
    fn add(&mut self, left: usize, name: Name, meaning: Meaning) -> Result<(), LineError>
        ensures { Answers LineError.NoMemory (with_name left name meaning (layout_standing_of self.old)) (laid_out result self.new) }
    {
        if self.names.contains_key(&name) {
            return Err(wanted(left, Want::NewName));
        }
        match self.names.insert(name, meaning) {
            Ok(_) => Ok(()),
            Err(_) => Err(LineError::NoMemory),
        }
    }

    // What follows begins there.
    fn move_to(&mut self, left: usize, to: u64) -> Result<(), LineError>
        ensures { laid_out result self.new ≡ continued_at left to (layout_standing_of self.old) }
    {
        if to > COMPONENT_FILE_MOST as u64 {
            return Err(wanted(left, Want::Room));
        }
        self.here = to;
        Ok(())
    }

    fn add_label(&mut self, label: Option<Label>) -> Result<(), LineError>
        ensures { Answers LineError.NoMemory (labelled label (layout_standing_of self.old)) (laid_out result self.new) }
    {
        match label {
            None => Ok(()),
            Some(label) => self.add(label.left, label.name, Meaning::Offset(self.here)),
        }
    }

    fn add_statement(&mut self, statement: &Statement) -> Result<(), LineError>
        ensures { Answers LineError.NoMemory (stated statement.now (layout_standing_of self.old)) (laid_out result self.new) }
    {
        let here = self.here;
        match statement {
            Statement::Nothing => Ok(()),
            Statement::Definition { left, name, number } => {
                self.add(*left, *name, Meaning::Number(*number))
            }
            Statement::Offset { left, offset } => {
                if *offset < here {
                    return Err(wanted(*left, Want::Ahead));
                }
                self.move_to(*left, *offset)
            }
            Statement::Data { left, size, values } => {
                let count = (values.len() as u64).saturating_mul(u64::from(size.bytes()));
                self.move_to(*left, here.saturating_add(count))
            }
            Statement::Instruction(operation) => {
                if here % 8 != 0 {
                    return Err(wanted(operation.left, Want::Aligned));
                }
                self.move_to(operation.left, here.saturating_add(8))
            }
        }
    }

    // What a line leaves.
    fn add_line(&mut self, line: &SourceLine) -> Result<(), LineError>
        ensures { Answers LineError.NoMemory (after_line line.now (layout_standing_of self.old)) (laid_out result self.new) }
    {
        self.add_label(line.label)?;
        self.add_statement(&line.statement)
    }
}

/// The lines of a source, with what its names stand for.
#[derive(Drop)]
pub(crate) struct Layout {
    pub lines: Seq<Placed>,
    pub names: BTreeMap<Name, Meaning>,
}

/// A fault in a line, in its source.
pub(crate) fn fault_in(number: u64, end: u64, error: LineError) -> SourceFault
    ensures { result ≡ fault_in number end error }
{
    match error {
        LineError::Wanted { left, want } => SourceFault::At {
            line: number,
            column: end.saturating_sub(left as u64),
            want,
        },
        LineError::NoMemory => SourceFault::NoMemory,
    }
}

// What a line says, and where it begins. What it leaves is kept.
#[tactic(auto, unfolding(crate::specs::Layout::source_line_at))]
fn place_line(
    alloc: Global,
    standing: &mut Standing,
    number: u64,
    text: &[u8],
) -> Result<Placed, SourceFault>
    ensures { Answers SourceFault.NoMemory (source_line_at (layout_standing_of standing.old) number text.now) (placed_told result standing.new) }
{
    let here = standing.here;
    let end = text.len() as u64 + 1;
    match line_of(alloc, text) {
        Ok(line) => match standing.add_line(&line) {
            Ok(()) => Ok(Placed {
                number,
                end,
                here,
                statement: line.statement,
            }),
            Err(error) => Err(fault_in(number, end, error)),
        },
        Err(error) => Err(fault_in(number, end, error)),
    }
}

/// The lines of a text, or the first fault in them.
pub(crate) fn layout_of(alloc: Global, text: &[u8]) -> Result<Layout, SourceFault>
    ensures { Answers SourceFault.NoMemory (layout_from at_start 1 (lines_of text.now)) (shown_layout result) }
{
    let mut standing = Standing {
        here: 0,
        names: BTreeMap::new(alloc),
    };
    let mut lines = Seq::new(alloc);
    let mut rest = text;
    let mut number: u64 = 1;
    while !rest.is_empty() {
        let (line, behind) = first_line(rest);
        match place_line(alloc, &mut standing, number, line) {
            Ok(line) => lines.push(line)?,
            Err(fault) => return Err(fault),
        }
        rest = behind;
        number += 1;
    }
    Ok(Layout {
        lines,
        names: standing.names,
    })
}
