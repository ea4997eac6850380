//! What the words after the program's name ask for.
ghost use Rattle.std.specs.Prelude.{◌≡◌, map, option_map, string_bytes};
ghost use Rattle.command_shell.specs.Errors.{telling};
ghost use Rattle.command_shell.specs.Forms.{form_shown};
ghost use Rattle.dma_top.specs.Commands.{command_at, command_of, flows_of, forms, lines_of, verify_of, windows_of};
ghost use Rattle.dma_top.specs.Parsed.{asked};
ghost use Rattle.dma_top.specs.Refusals.{devices, refusal_status, refusal_text};

use command_shell::{Form, Program};

/// A command without its names.
#[derive(Clone, Copy, Debug)]
pub(crate) enum Kind {
    Verify,
    Lines,
    Map,
    Flows,
}

/// What is asked for, with the names of files that were given.
#[derive(Clone, Copy)]
pub(crate) enum Command<'a> {
    /// Whether an image is sound for a policy, and tables fit both.
    Verify {
        image: &'a str,
        policy: &'a str,
        tables: &'a str,
    },
    /// What each line of direct memory access of a record did is printed.
    Lines {
        image: &'a str,
        inputs: &'a str,
        tables: &'a str,
    },
    /// Where a policy's devices reach memory is printed.
    Map(&'a str),
    /// On whom each subject can depend, through devices too, is printed.
    Flows(&'a str),
}

macro_rules! form {
    ($word:expr, $parameters:expr, $command:ident) => {
        Form {
            word: $word,
            parameters: &$parameters,
            command: Kind::$command,
        }
    };
}

// The forms, in the order in which they are told.
static FORMS: [Form<Kind>; 4] = [
    form!("verify", ["IMAGE", "POLICY", "DMA"], Verify),
    form!("lines", ["IMAGE", "RECORD", "DMA"], Lines),
    form!("map", ["POLICY"], Map),
    form!("flows", ["POLICY"], Flows),
];

/// The program.
pub(crate) fn program() -> Program<'static, Kind>
    ensures forms { map form_shown result.forms.now ≡ forms }
    ensures told { telling result refusal_text refusal_status ≡ devices }
{
    Program {
        name: "muen_dma",
        forms: &FORMS,
    }
}

impl<'a> Command<'a> {
    fn verify(arguments: &'a [String]) -> Option<Command<'a>>
        ensures { option_map asked result ≡ verify_of (map string_bytes arguments.now) }
    {
        match arguments {
            [image, policy, tables] => Some(Command::Verify {
                image: image.as_str(),
                policy: policy.as_str(),
                tables: tables.as_str(),
            }),
            _ => None,
        }
    }

    fn lines(arguments: &'a [String]) -> Option<Command<'a>>
        ensures { option_map asked result ≡ lines_of (map string_bytes arguments.now) }
    {
        match arguments {
            [image, inputs, tables] => Some(Command::Lines {
                image: image.as_str(),
                inputs: inputs.as_str(),
                tables: tables.as_str(),
            }),
            _ => None,
        }
    }

    fn map(arguments: &'a [String]) -> Option<Command<'a>>
        ensures { option_map asked result ≡ windows_of (map string_bytes arguments.now) }
    {
        match arguments {
            [policy] => Some(Command::Map(policy.as_str())),
            _ => None,
        }
    }

    fn flows(arguments: &'a [String]) -> Option<Command<'a>>
        ensures { option_map asked result ≡ flows_of (map string_bytes arguments.now) }
    {
        match arguments {
            [policy] => Some(Command::Flows(policy.as_str())),
            _ => None,
        }
    }

    // The command of this kind with these words behind its own.
    fn of_kind(kind: Kind, arguments: &'a [String]) -> Option<Command<'a>>
        ensures { option_map asked result ≡ command_at kind (map string_bytes arguments.now) }
    {
        match kind {
            Kind::Verify => Command::verify(arguments),
            Kind::Lines => Command::lines(arguments),
            Kind::Map => Command::map(arguments),
            Kind::Flows => Command::flows(arguments),
        }
    }

    /// The command that the words ask for; `None` where they have no command's form.
    pub(crate) fn parse(words: &'a [String]) -> Option<Command<'a>>
        ensures { option_map asked result ≡ command_of (map string_bytes words.now) }
    {
        let (kind, arguments) = program().command(words)?;
        Command::of_kind(kind, arguments)
    }
}
