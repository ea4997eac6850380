//! Lists of what is noted at each index.
ghost use Rattle.std.specs.Prelude.{◌≡◌, ◌<◌, ◌==◌, ◌++◌, [], ◌∷◌, slice_index_or, if◌then◌else◌, IfOk};
ghost use Rattle.rules_channels.specs.ByIndex.{AreItems, AreEmpty};

use muen_num::{NoMemory, Seq};
use std::alloc::Global;

// So many empty lists.
fn empty_lists<T: Drop>(alloc: Global, indexes: usize) -> Result<Vec<Seq<T>>, NoMemory>
    ensures { IfOk result (λ v. AreEmpty v.items indexes) }
{
    let mut lists = Vec::new(alloc);
    for _ in 0..indexes {
        lists.push(Seq::new(alloc))?;
    }
    Ok(lists)
}

/// For each of so many indexes the items that are noted there, in order.
///
/// Answers `NoMemory` where memory was refused.
pub fn by_index<T: Copy + Drop>(
    alloc: Global,
    items: &[(usize, T)],
    indexes: usize,
) -> Result<Vec<Seq<T>>, NoMemory>
    ensures { IfOk result (λ v. AreItems v.items indexes items.now) }
{
    let mut lists = empty_lists(alloc, indexes)?;
    for item in items {
        let (index, noted) = *item;
        if index < lists.len() {
            lists[index].push(noted)?;
        }
    }
    Ok(lists)
}

/// The items that are noted at an index; none where there is no such index.
pub fn at<T>(lists: &[Seq<T>], index: usize) -> &[T]
    ensures { result.now ≡ slice_index_or lists.now index [] }
{
    match lists.get(index) {
        Some(list) => list.items(),
        None => &[],
    }
}
