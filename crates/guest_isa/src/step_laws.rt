//! Laws of steps: functions that do nothing, whose contracts say them.
ghost use Rattle.std.specs.Prelude.{◌≡◌, ℕ};
ghost use Rattle.state_page.specs.declared.state.SubjectState.{SubjectState};
ghost use Rattle.guest_isa.specs.Named.{AreAlike, renamed};
ghost use Rattle.guest_isa.specs.Step.{World, step};

/// A step doesn't depend on what targets are called: in worlds that are the same but for names, it
/// answers the same but for names.
pub fn alike_worlds_step_alike<X, Y>()
    ensures { (f : X → ℕ → Y × ℕ) (a : World X) (b : World Y) → AreAlike f a b → (s : SubjectState) → step b s ≡ renamed f (step a s) }
{}
