//! The text of `flows`.
ghost use Rattle.std.specs.Prelude.{◌≡◌, ◌++◌, [], false, slice_index_or};
ghost use Rattle.std.specs.List.{enumerate_from, flat_map};
ghost use Rattle.muen_outside.specs.Prints.{Prints};
ghost use Rattle.muen_outside.specs.Puts.{Puts};
ghost use Rattle.policy_lawful.specs.Resolution.{source_of};
ghost use Rattle.flow_report.specs.FlowText.{flow_text_of};
ghost use Rattle.flow_report.specs.Sets.{AreFlows};
ghost use Rattle.flow_report.specs.TextByIndex.{line_end, line_start, lines_text, member_at, member_text, members_text};

use crate::sets::FlowSets;
use muen_num::{Name, Seq};
use muen_outside::{Buffer, BufferedSink, Sink, SinkFault};
use policy_lawful::Lawful;
use policy_lawful::resolved::Subject;

// Whether an index is marked; one that isn't there is not.
fn is_marked(set: &[bool], index: usize) -> bool
    ensures { result ≡ slice_index_or set.now index false }
{
    match set.get(index) {
        Some(mark) => *mark,
        None => false,
    }
}

/// The marks at an index; none where there is no such index.
pub fn marks_at(sets: &[Seq<bool>], index: usize) -> &[bool]
    ensures { result.now ≡ slice_index_or sets.now index [] }
{
    match sets.get(index) {
        Some(set) => set.items(),
        None => &[],
    }
}

// One text behind another.
#[tactic(auto, using(muen_outside::proofs::Buffered::gives))]
fn put_two<S: Sink>(
    first: &[u8],
    second: &[u8],
    out: &mut BufferedSink<'_, S>,
) -> Result<(), SinkFault>
    ensures { Prints S.state (first.now ++ second.now) out.old out.new result }
{
    out.put(first)?;
    out.put(second)
}

#[tactic(auto, using(muen_outside::proofs::Buffered::gives))]
fn put_three<S: Sink>(
    first: &[u8],
    second: &[u8],
    third: &[u8],
    out: &mut BufferedSink<'_, S>,
) -> Result<(), SinkFault>
    ensures { Prints S.state (first.now ++ second.now ++ third.now) out.old out.new result }
{
    put_two(first, second, out)?;
    out.put(third)
}

// The name behind a space, where it is marked.
#[tactic(auto, using(muen_outside::proofs::Buffered::gives))]
fn put_member<S: Sink>(
    marked: bool,
    name: &Name,
    out: &mut BufferedSink<'_, S>,
) -> Result<(), SinkFault>
    ensures { Prints S.state (member_text marked name.now) out.old out.new result }
{
    if marked {
        put_two(b" ", name.bytes(), out)
    } else {
        Ok(())
    }
}

// The subjects that are marked, by their numbers.
#[tactic(auto, using(crate::proofs::NumberedTexts::numbered))]
fn put_numbered<S: Sink>(
    set: &[bool],
    subjects: &[Subject],
    out: &mut BufferedSink<'_, S>,
) -> Result<(), SinkFault>
    ensures { Prints S.state (flat_map (member_at set.now) (enumerate_from 0 subjects.now)) out.old out.new result }
{
    for (index, subject) in subjects.iter().enumerate() {
        put_member(is_marked(set, index), &subject.name, out)?;
    }
    Ok(())
}

fn put_members<S: Sink>(
    set: &[bool],
    subjects: &[Subject],
    out: &mut BufferedSink<'_, S>,
) -> Result<(), SinkFault>
    ensures { Prints S.state (members_text set.now subjects.now) out.old out.new result }
{
    put_numbered(set, subjects, out)
}

// What stands before the members of a line.
#[tactic(auto, unfolding(crate::specs::TextByIndex::line_start))]
fn put_start<S: Sink>(name: &Name, out: &mut BufferedSink<'_, S>) -> Result<(), SinkFault>
    ensures { Prints S.state (line_start name.now) out.old out.new result }
{
    put_three(b"flow ", name.bytes(), b" from", out)
}

// What stands behind them.
#[tactic(auto, unfolding(crate::specs::TextByIndex::line_end))]
fn put_end<S: Sink>(out: &mut BufferedSink<'_, S>) -> Result<(), SinkFault>
    ensures { Prints S.state line_end out.old out.new result }
{
    out.put(b"\n")
}

// A line: its start, the members, its end.
#[tactic(auto, using(muen_outside::proofs::Buffered::gives))]
fn put_line<S: Sink>(
    name: &Name,
    set: &[bool],
    subjects: &[Subject],
    out: &mut BufferedSink<'_, S>,
) -> Result<(), SinkFault>
    ensures { Prints S.state (line_start name.now ++ members_text set.now subjects.now ++ line_end) out.old out.new result }
{
    put_start(name, out)?;
    put_members(set, subjects, out)?;
    put_end(out)
}

/// Puts a line for each subject, `flow SUBJECT from S1 S2 ..`, with the subjects that its marks tell.
#[tactic(auto, using(crate::proofs::NumberedTexts::numbered))]
pub fn put_lines<S: Sink>(
    subjects: &[Subject],
    sets: &[Seq<bool>],
    out: &mut BufferedSink<'_, S>,
) -> Result<(), SinkFault>
    ensures { Prints S.state (lines_text subjects.now sets.now) out.old out.new result }
{
    for (index, subject) in subjects.iter().enumerate() {
        put_line(&subject.name, marks_at(sets, index), subjects, out)?;
    }
    Ok(())
}

// All lines.
fn put_text<S: Sink>(
    policy: &Lawful,
    flows: &FlowSets,
    out: &mut BufferedSink<'_, S>,
) -> Result<(), SinkFault>
    requires { AreFlows (source_of policy.now) flows.now }
    ensures { Prints S.state (flow_text_of (source_of policy.now)) out.old out.new result }
{
    put_lines(policy.resolved().subjects(), flows.sets(), out)
}

/// Puts a line for each subject: `flow SUBJECT from S1 S2 ..`, the subject itself and all that can
/// reach it, in the policy's order. The text goes through the buffer, in which nothing may wait
/// before, and takes no memory. Where the sink fails it has a front of the text.
#[tactic(auto, using(muen_outside::proofs::Buffered::gives))]
pub fn flow_text<S: Sink>(
    policy: &Lawful,
    flows: &FlowSets,
    buffer: &mut Buffer,
    out: &mut S,
) -> Result<(), SinkFault>
    requires flows { AreFlows (source_of policy.now) flows.now }
    requires empty { buffer.old ≡ [] }
    ensures { Puts (flow_text_of (source_of policy.now)) (S.state out.old) (S.state out.new) result }
{
    let mut out = BufferedSink { buffer, sink: out };
    put_text(policy, flows, &mut out)?;
    out.flush()
}
