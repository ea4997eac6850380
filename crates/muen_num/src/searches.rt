//! Searches of a list in order, each for the first answer that a closure gives.
ghost use Rattle.std.specs.Prelude.{◌≡◌, ℕ, Option};
ghost use Rattle.std.specs.List.{enumerate_from};
ghost use Rattle.muen_num.specs.Search.{Computes, ComputesOfNumbered, ComputesOfTwo, first_in, first_pair};

/// The first answer to an item; `None` where no item has one.
pub fn first<T, O, F: Fn(&T) -> Option<O>>(items: &[T], f: F) -> Option<O>
    requires { F.IsAlwaysCallable f }
    ensures { (h : T → Option O) → Computes F.Fn f h → result ≡ first_in h items.now }
{
    for x in items {
        match f(x) {
            Some(answer) => return Some(answer),
            None => {}
        }
    }
    None
}

/// The first answer to an item and its index; indexes count from 0.
pub fn first_numbered<T, O, F: Fn(usize, &T) -> Option<O>>(items: &[T], f: F) -> Option<O>
    requires { F.IsAlwaysCallable f }
    ensures { (h : ℕ × T → Option O) → ComputesOfNumbered F.Fn f h → result ≡ first_in h (enumerate_from 0 items.now) }
{
    for (index, x) in items.iter().enumerate() {
        match f(index, x) {
            Some(answer) => return Some(answer),
            None => {}
        }
    }
    None
}

// The first answer to one of these items and the later one.
fn first_with<T, O, F: Fn(&T, &T) -> Option<O>>(before: &[T], later: &T, f: &F) -> Option<O>
    requires { F.IsAlwaysCallable f.now }
    ensures { (h : T → T → Option O) → ComputesOfTwo F.Fn f.now h → result ≡ first_in (λ x. h x later.now) before.now }
{
    for x in before {
        match f(x, later) {
            Some(answer) => return Some(answer),
            None => {}
        }
    }
    None
}

/// The first answer to a pair, an item and a later one: of those with the least later item, the
/// one with the least earlier.
pub fn first_pair<T, O, F: Fn(&T, &T) -> Option<O>>(items: &[T], f: F) -> Option<O>
    requires { F.IsAlwaysCallable f }
    ensures { (h : T → T → Option O) → ComputesOfTwo F.Fn f h → result ≡ first_pair h items.now }
{
    for (index, later) in items.iter().enumerate() {
        match first_with(&items[..index], later, &f) {
            Some(answer) => return Some(answer),
            None => {}
        }
    }
    None
}
