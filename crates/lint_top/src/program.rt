//! The program's name and its form.
ghost use Rattle.std.specs.Prelude.{◌≡◌};
ghost use Rattle.command_shell.specs.Errors.{telling};
ghost use Rattle.lint_top.specs.Tellings.{linter, reason_status, reason_text};

use command_shell::{Form, Program};

// No word stands before the policy's.
static FORMS: [Form<()>; 1] = [Form {
    word: "POLICY",
    parameters: &[],
    command: (),
}];

/// The program, as its line of usage tells it.
pub(crate) fn program() -> Program<'static, ()>
    ensures told { telling result reason_text reason_status ≡ linter }
{
    Program {
        name: "muen_lint",
        forms: &FORMS,
    }
}
