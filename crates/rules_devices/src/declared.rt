//! Elements that are declared, by their names.
ghost use Rattle.std.specs.Prelude.{◌≡◌, None, map, position, slice_get, option_copied, IfOk};
ghost use Rattle.std.specs.List.{find};
ghost use Rattle.std.specs.Str.{bytes_eq};
ghost use Rattle.policy_lawful.specs.Rules.{is_declared, repeated};
ghost use Rattle.rules_devices.specs.Windows.{size_among};
ghost use Rattle.rules_devices.specs.Domains.{has_bdf};

use muen_num::{Name, NoMemory};
use policy_lawful::source::{Device, Region};
use policy_lawful::{NameSet, Named};
use std::alloc::Global;

/// Elements that can be looked up by their names.
#[derive(Drop)]
pub(crate) struct Declared<'a, T: Named> {
    items: &'a [T],
    names: NameSet,
    ghost are_names: { names ≡ map T.name items.now },
}

// The element at an index.
fn item_at<T>(items: &[T], index: usize) -> Option<&T>
    ensures { option_copied result ≡ slice_get items.now index }
{
    items.get(index)
}

impl<'a, T: Named> Declared<'a, T> {
    /// These elements, no two of which have the same name.
    ///
    /// Answers `NoMemory` where memory was refused.
    pub(crate) fn of(alloc: Global, items: &'a [T]) -> Result<Declared<'a, T>, NoMemory>
        requires { repeated (map T.name items.now) ≡ None }
        ensures { IfOk result (λ d. d.items.now ≡ items.now) }
    {
        let names = NameSet::of(alloc, items)?;
        Ok(Declared { items, names })
    }

    /// Whether an element has this name.
    pub(crate) fn contains(&self, name: &Name) -> bool
        ensures { result ≡ is_declared (map T.name self.now.items.now) name.now }
    {
        self.names.contains(name)
    }

    // Its index.
    fn index_of(&self, name: &Name) -> Option<usize>
        ensures { result ≡ position (λ n. bytes_eq n name.now) (map T.name self.now.items.now) }
    {
        self.names.index_of(name)
    }

    // The element of this name.
    fn find(&self, name: &Name) -> Option<&T>
        ensures { option_copied result ≡ find (λ x. bytes_eq (T.name x) name.now) self.now.items.now }
    {
        match self.index_of(name) {
            Some(index) => item_at(self.items, index),
            None => None,
        }
    }
}

impl<'a> Declared<'a, Device> {
    /// Whether the device of this name has a bus, device and function number.
    pub(crate) fn has_bdf(&self, name: &Name) -> bool
        ensures { result ≡ has_bdf self.now.items.now name.now }
    {
        match self.find(name) {
            Some(device) => device.bdf.is_some(),
            None => false,
        }
    }
}

impl<'a> Declared<'a, Region> {
    /// The size of the region of this name; 0 where there is none.
    pub(crate) fn size(&self, name: &Name) -> u64
        ensures { result ≡ size_among self.now.items.now name.now }
    {
        match self.find(name) {
            Some(region) => region.size,
            None => 0,
        }
    }
}
