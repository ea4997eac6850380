//! What the words after the program's name ask for.
ghost use Rattle.std.specs.Prelude.{◌≡◌, Option, map, option_map, string_bytes};
ghost use Rattle.command_shell.specs.Errors.{telling};
ghost use Rattle.command_shell.specs.Forms.{form_shown};
ghost use Rattle.asm_top.specs.Commands.{base_of, bin_of, command_at, command_of, forms, hex_of, lines_of, text_of};
ghost use Rattle.asm_top.specs.Parsed.{asked};
ghost use Rattle.asm_top.specs.Refusals.{assembler, refusal_status, refusal_text};

use asm_text::number_in;
use command_shell::{Form, Program};
use muen_num::limits::GUEST_END;

/// A command without its names.
#[derive(Clone, Copy, Debug)]
pub(crate) enum Kind {
    Hex,
    Lines,
    Bin,
    Text,
}

/// What is asked for, with the names that were given.
#[derive(Clone, Copy)]
pub(crate) enum Command<'a> {
    /// A source's bytes are printed in hexadecimal digits. A file of names stands before it, if one is named.
    Hex {
        names: Option<&'a str>,
        source: &'a str,
    },
    /// The same bytes are printed as a listing.
    Lines {
        names: Option<&'a str>,
        source: &'a str,
        base: u64,
    },
    /// They are written.
    Bin {
        names: Option<&'a str>,
        source: &'a str,
        file: &'a str,
    },
    /// A source of a file's bytes is printed.
    Text(&'a str),
}

macro_rules! form {
    ($word:expr, $parameters:expr, $command:ident) => {
        Form {
            word: $word,
            parameters: &$parameters,
            command: Kind::$command,
        }
    };
}

// The forms, in the order in which they are told.
static FORMS: [Form<Kind>; 7] = [
    form!("hex", ["SOURCE"], Hex),
    form!("lines", ["SOURCE", "BASE"], Lines),
    form!("bin", ["SOURCE", "FILE"], Bin),
    form!("text", ["FILE"], Text),
    form!("hex", ["NAMES", "SOURCE"], Hex),
    form!("lines", ["NAMES", "SOURCE", "BASE"], Lines),
    form!("bin", ["NAMES", "SOURCE", "FILE"], Bin),
];

/// The program.
pub(crate) fn program() -> Program<'static, Kind>
    ensures forms { map form_shown result.forms.now ≡ forms }
    ensures told { telling result refusal_text refusal_status ≡ assembler }
{
    Program {
        name: "muen_asm",
        forms: &FORMS,
    }
}

// An address below the end of guest addresses.
fn base_of(word: &str) -> Option<u64>
    ensures { result ≡ base_of word.now }
{
    let base = number_in(word.as_bytes())?;
    if base < GUEST_END { Some(base) } else { None }
}

impl<'a> Command<'a> {
    fn hex(arguments: &'a [String]) -> Option<Command<'a>>
        ensures { option_map asked result ≡ hex_of (map string_bytes arguments.now) }
    {
        match arguments {
            [source] => Some(Command::Hex {
                names: None,
                source: source.as_str(),
            }),
            [names, source] => Some(Command::Hex {
                names: Some(names.as_str()),
                source: source.as_str(),
            }),
            _ => None,
        }
    }

    fn lines(arguments: &'a [String]) -> Option<Command<'a>>
        ensures { option_map asked result ≡ lines_of (map string_bytes arguments.now) }
    {
        match arguments {
            [source, base] => match base_of(base.as_str()) {
                Some(base) => Some(Command::Lines {
                    names: None,
                    source: source.as_str(),
                    base,
                }),
                None => None,
            },
            [names, source, base] => match base_of(base.as_str()) {
                Some(base) => Some(Command::Lines {
                    names: Some(names.as_str()),
                    source: source.as_str(),
                    base,
                }),
                None => None,
            },
            _ => None,
        }
    }

    fn bin(arguments: &'a [String]) -> Option<Command<'a>>
        ensures { option_map asked result ≡ bin_of (map string_bytes arguments.now) }
    {
        match arguments {
            [source, file] => {
                if source.as_str() == file.as_str() {
                    return None;
                }
                Some(Command::Bin {
                    names: None,
                    source: source.as_str(),
                    file: file.as_str(),
                })
            }
            [names, source, file] => {
                if names.as_str() == file.as_str() {
                    return None;
                }
                if source.as_str() == file.as_str() {
                    return None;
                }
                Some(Command::Bin {
                    names: Some(names.as_str()),
                    source: source.as_str(),
                    file: file.as_str(),
                })
            }
            _ => None,
        }
    }

    fn text(arguments: &'a [String]) -> Option<Command<'a>>
        ensures { option_map asked result ≡ text_of (map string_bytes arguments.now) }
    {
        match arguments {
            [file] => Some(Command::Text(file.as_str())),
            _ => None,
        }
    }

    // The command of this kind with these words behind its own.
    fn of_kind(kind: Kind, arguments: &'a [String]) -> Option<Command<'a>>
        ensures { option_map asked result ≡ command_at kind (map string_bytes arguments.now) }
    {
        match kind {
            Kind::Hex => Command::hex(arguments),
            Kind::Lines => Command::lines(arguments),
            Kind::Bin => Command::bin(arguments),
            Kind::Text => Command::text(arguments),
        }
    }

    /// The command that the words ask for; `None` where they have no command's form.
    pub(crate) fn parse(words: &'a [String]) -> Option<Command<'a>>
        ensures { option_map asked result ≡ command_of (map string_bytes words.now) }
    {
        let (kind, arguments) = program().command(words)?;
        Command::of_kind(kind, arguments)
    }
}
