//! Numbers of calls, traps and interrupts.
ghost use Rattle.std.specs.Prelude.{◌≡◌, ◌<◌, ℕ, length, false, slice_index_or};
ghost use Rattle.rules_events.specs.Numbers.{are_distinct_in, may_follow};

use crate::marks::{is_marked, mark};

/// How many numbers can be marked.
const NUMBERS: usize = 256;

// Whether a number is in the range, and isn't marked.
fn may_follow(marks: &[bool], first: u64, last: u64, number: u64) -> bool
    ensures { result ≡ may_follow marks.now first last number }
{
    first <= number && number <= last && !is_marked(marks, number as usize)
}

// Whether each is in the range, and no two are equal, with marks that are clear.
fn all_follow(marks: &mut [bool], first: u64, last: u64, numbers: &[u64]) -> bool
    requires room { last < length marks.old }
    requires clear { (k : ℕ) → k < length marks.old → slice_index_or marks.old k false ≡ false }
    ensures { result ≡ are_distinct_in first last numbers.now }
{
    for number in numbers {
        if !may_follow(marks, first, last, *number) {
            return false;
        }
        mark(marks, *number as usize, true);
    }
    true
}

/// Whether each of these numbers is at least `first` and at most `last`, and no two are equal.
pub(crate) fn are_distinct_in(numbers: &[u64], first: u64, last: u64) -> bool
    requires { last < 256 }
    ensures { result ≡ are_distinct_in first last numbers.now }
{
    let mut marks = [false; NUMBERS];
    all_follow(&mut marks, first, last, numbers)
}
