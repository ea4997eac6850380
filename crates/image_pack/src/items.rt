//! Rows of an image, one after the other: the loops, written once for every table.
ghost use Rattle.std.specs.Prelude.{◌≡◌, ℕ, IfOk, OnOk, ◌++◌};
ghost use Rattle.binary_form.specs.Form.{Form, Gives, items};

use binary_form::FormError;
use muen_num::Seq;
use std::alloc::{AllocError, Global};

/// What stands in a table of an image.
pub trait Item: Drop {
    ghost use Rattle.binary_form.specs.Form.{Form};

    /// What it may refer to.
    type Among: Drop;

    /// What the rows before it left.
    type Before: Drop;

    ghost next: { Self.Among → Self.Before → Self → Self.Before };

    ghost form: { Self.Among → Self.Before → Form Self };

    /// The row at the front of the bytes, and the bytes behind it.
    ///
    /// # Errors
    /// The row's first fault, with how many bytes are left there; memory is refused.
    fn read<'a>(
        alloc: Global,
        among: &Self::Among,
        before: &mut Self::Before,
        bytes: &'a [u8],
    ) -> Result<(Self, &'a [u8]), FormError>
    where
        Self: Sized,
        ensures gives { Gives (λ x. (x.0, x.1.now)) result ((form among.now before.old).read bytes.now) }
        ensures next { IfOk result (λ x. before.new ≡ next among.now before.old x.0) };

    /// Writes its bytes behind those that are there. A row that may stand behind some others is
    /// spelled alike behind all.
    ///
    /// # Errors
    /// Memory is refused.
    fn put(&self, out: &mut Vec<u8>) -> Result<(), AllocError>
        requires { (a : Self.Among) × (b : Self.Before) × (form a b).fits self.now }
        ensures { (a : Self.Among) (b : Self.Before) → OnOk result (out.new.items ≡ out.old.items ++ (form a b).spell self.now) };
}

/// So many rows, and the bytes behind them.
///
/// # Errors
/// The first fault of a row; memory is refused.
#[tactic(auto, unfolding(binary_form::specs::Form::items))]
pub fn items_of<'a, T: Item>(
    alloc: Global,
    among: &T::Among,
    before: T::Before,
    count: usize,
    bytes: &'a [u8],
) -> Result<(Seq<T>, &'a [u8]), FormError>
    ensures { Gives (λ x. (x.0, x.1.now)) result ((items (T.next among.now) (T.form among.now) before count).read bytes.now) }
{
    let mut list = Seq::new(alloc);
    let mut left = before;
    let mut rest = bytes;
    for i in 0..count {
        let (item, after) = T::read(alloc, among, &mut left, rest)?;
        list.push(item)?;
        rest = after;
    }
    Ok((list, rest))
}

/// Writes the bytes of rows behind those that are there.
///
/// # Errors
/// Memory is refused.
#[tactic(auto, unfolding(binary_form::specs::Form::items))]
pub fn put_items<T: Item>(list: &[T], out: &mut Vec<u8>) -> Result<(), AllocError>
    requires { (a : T.Among) × (b : T.Before) × (n : ℕ) × (items (T.next a) (T.form a) b n).fits list.now }
    ensures { (a : T.Among) (b : T.Before) (n : ℕ) → OnOk result (out.new.items ≡ out.old.items ++ (items (T.next a) (T.form a) b n).spell list.now) }
{
    for item in list {
        item.put(out)?;
    }
    Ok(())
}
