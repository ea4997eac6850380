// How many calls of a sink in memory have failed.
use muen_num::{Tells, Told};
use std::marker::Model;

/// A count of calls that failed, in clauses alone: no value of this type is made.
pub(crate) struct Count {
    none: (),
}

impl Model for Count {
    ghost use Rattle.std.specs.Prelude.{ℕ};

    ghost Value = { ℕ };

    ghost view = { λ _. 0 };
}

/// None was counted.
#[derive(Drop)]
pub(crate) struct Start;

impl Tells<Count> for Start {
    ghost tells = { λ _. 0 };
}

/// One more was counted.
#[derive(Drop)]
pub(crate) struct OneMore<'a> {
    pub before: &'a Told<Count>,
}

impl Tells<Count> for OneMore<'_> {
    ghost use Rattle.std.specs.Prelude.{◌+◌};

    ghost tells = { λ m. m.before.now.value + 1 };
}
