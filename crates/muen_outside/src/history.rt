use crate::files::{FileError, Found};
use muen_num::{Tells, Told};
use std::marker::Model;

// What was done with files, in clauses alone: no value of this type is made.
pub(crate) struct Calls {
    none: (),
}

impl Model for Calls {
    ghost use Rattle.muen_outside.specs.States.{History, no_history};

    ghost Value = { History };

    ghost view = { λ _. no_history };
}

// Nothing was done.
#[derive(Drop)]
pub(crate) struct Start;

impl Tells<Calls> for Start {
    ghost use Rattle.muen_outside.specs.States.{no_history};

    ghost tells = { λ _. no_history };
}

// A read was made, and answered this.
#[derive(Drop)]
pub(crate) struct Looked<'a> {
    pub(crate) before: &'a Told<Calls>,
    pub(crate) name: &'a str,
    pub(crate) most: usize,
    pub(crate) got: &'a Result<Found, FileError>,
}

impl Tells<Calls> for Looked<'_> {
    ghost use Rattle.std.specs.Prelude.{◌∷◌, []};
    ghost use Rattle.muen_outside.specs.Found.{answered};
    ghost use Rattle.muen_outside.specs.States.{look, looked};

    ghost tells = { λ l. looked l.before.now.value (look l.name.now l.most (answered l.got.now) ∷ []) };
}

// A write was made, and ended so.
#[derive(Drop)]
pub(crate) struct Wrote<'a> {
    pub(crate) before: &'a Told<Calls>,
    pub(crate) name: &'a str,
    pub(crate) bytes: &'a [u8],
    pub(crate) end: &'a Result<(), FileError>,
}

impl Tells<Calls> for Wrote<'_> {
    ghost use Rattle.std.specs.Prelude.{◌∷◌, []};
    ghost use Rattle.muen_outside.specs.States.{write, written};

    ghost tells = { λ w. written w.before.now.value (write w.name.now w.bytes.now w.end.now ∷ []) };
}
