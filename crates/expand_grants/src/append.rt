//! Lists to which an item is appended where there is one.
ghost use Rattle.std.specs.Prelude.{◌≡◌, ◌++◌, [], IfOk};
ghost use Rattle.std.specs.List.{cons_option};

use muen_num::NoMemory;

/// Appends an item, if there is one.
///
/// Answers `NoMemory` where memory was refused.
pub(crate) fn push_some<T: Drop>(items: &mut Vec<T>, item: Option<T>) -> Result<(), NoMemory>
    ensures { IfOk result (λ _. items.new.items ≡ items.old.items ++ cons_option item []) }
{
    match item {
        None => Ok(()),
        Some(item) => {
            items.push(item)?;
            Ok(())
        }
    }
}
