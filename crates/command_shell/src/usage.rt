//! The line that tells the forms of all commands.
ghost use Rattle.std.specs.Prelude.{◌++◌, codes, map};
ghost use Rattle.std.specs.List.{flat_map};
ghost use Rattle.muen_outside.specs.Puts.{Puts};
ghost use Rattle.command_shell.specs.Forms.{form_shown, form_text, other_forms_text, parameter_text, usage_text};
ghost use Rattle.command_shell.specs.Texts.{error_line};

use crate::form::{Form, Program};
use muen_outside::{Sink, SinkFault, put_pieces};

fn put_parameter<E: Sink>(parameter: &str, err: &mut E) -> Result<(), SinkFault>
    ensures { Puts (parameter_text parameter.now) (E.state err.old) (E.state err.new) result }
{
    put_pieces(&[" ", parameter], err)
}

fn put_parameters<E: Sink>(parameters: &[&str], err: &mut E) -> Result<(), SinkFault>
    ensures { Puts (flat_map (λ p. parameter_text p.now) parameters.now) (E.state err.old) (E.state err.new) result }
{
    for parameter in parameters {
        put_parameter(parameter, err)?;
    }
    Ok(())
}

fn put_form<C, E: Sink>(before: &'static str, form: &Form<C>, err: &mut E) -> Result<(), SinkFault>
    ensures { Puts (before.now ++ form_text (form_shown form.now)) (E.state err.old) (E.state err.new) result }
{
    put_pieces(&[before, form.word], err)?;
    put_parameters(form.parameters, err)
}

fn put_others<C, E: Sink>(forms: &[Form<C>], err: &mut E) -> Result<(), SinkFault>
    ensures { Puts (flat_map (λ f. codes ", " ++ form_text (form_shown f)) forms.now) (E.state err.old) (E.state err.new) result }
{
    for form in forms {
        put_form(", ", form, err)?;
    }
    Ok(())
}

fn put_forms<C, E: Sink>(forms: &[Form<C>], err: &mut E) -> Result<(), SinkFault>
    ensures { Puts (usage_text (map form_shown forms.now)) (E.state err.old) (E.state err.new) result }
{
    match forms.split_first() {
        None => put_pieces(&["usage: "], err),
        Some((first, others)) => {
            put_form("usage: ", first, err)?;
            put_others(others, err)
        }
    }
}

/// Puts the line that tells the forms of a program's commands.
pub(crate) fn put_usage<C, E: Sink>(program: &Program<'_, C>, err: &mut E) -> Result<(), SinkFault>
    ensures { Puts (error_line program.now.name.now (usage_text (map form_shown program.now.forms.now))) (E.state err.old) (E.state err.new) result }
{
    put_pieces(&[program.name, ": "], err)?;
    put_forms(program.forms, err)?;
    put_pieces(&["\n"], err)
}
