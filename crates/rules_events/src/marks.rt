//! Indexes that are marked.
ghost use Rattle.std.specs.Prelude.{◌≡◌, false, slice_index_or, IfOk};
ghost use Rattle.rules_events.specs.Marks.{Marks, AreClear};

use std::alloc::{AllocError, Global};

/// Whether an index is marked.
pub(crate) fn is_marked(marks: &[bool], index: usize) -> bool
    ensures { result ≡ slice_index_or marks.now index false }
{
    match marks.get(index) {
        None => false,
        Some(mark) => *mark,
    }
}

/// Marks an index, or takes the mark away.
pub(crate) fn mark(marks: &mut [bool], index: usize, with: bool)
    ensures { Marks marks.old marks.new index with }
{
    if index < marks.len() {
        marks[index] = with;
    }
}

/// So many indexes with no mark.
pub(crate) fn no_marks(alloc: Global, indexes: usize) -> Result<Vec<bool>, AllocError>
    ensures { IfOk result (λ v. AreClear v.items indexes) }
{
    let marks = vec![in alloc; false; indexes]?;
    Ok(marks)
}
