// What the words after the program's name ask for.
ghost use Rattle.std.specs.Prelude.{◌≡◌, [], ◌∷◌, map, string_bytes};
ghost use Rattle.muen_top.specs.Commands.{command_of, load_number};
ghost use Rattle.muen_top.specs.Parsed.{asked};

use text_words::decimal;

/// What is asked for, with the names that were given.
#[derive(Clone, Copy)]
pub(crate) enum Command<'a> {
    /// The words have no command's form.
    Usage,
    /// An image is written for a policy, and tables for direct memory access if a file is named for them, all
    /// by the names of their files.
    Build {
        policy: &'a str,
        image: &'a str,
        tables: Option<&'a str>,
    },
    /// The system of a policy runs on a device record, both by the names of their files.
    Boot {
        policy: &'a str,
        inputs: &'a str,
    },
    /// An image runs on a device record, with tables for direct memory access if a file is named of them, all
    /// by the names of their files.
    Run {
        image: &'a str,
        inputs: &'a str,
        tables: Option<&'a str>,
    },
    /// The addresses and windows of a policy are printed.
    Map(&'a str),
    /// On whom each subject of a policy can depend is printed.
    Flows(&'a str),
    /// Whether an image is sound for a policy is told, both by the names of their files.
    Verify {
        image: &'a str,
        policy: &'a str,
    },
    /// The system that is generated of a number runs, and what comes of it is printed.
    Load(u16),
}

// The number below 2^16 that a word spells in decimal digits, without leading zeros.
#[tactic(auto, using(crate::proofs::Numbers::no_load))]
fn load_number(word: &str) -> Option<u16>
    ensures { result ≡ load_number word.now }
{
    u16::try_from(decimal(word.as_bytes()).ok()?).ok()
}

impl<'a> Command<'a> {
    // The command of a word and one name, or a number.
    fn of_one(word: &str, name: &'a str) -> Command<'a>
        ensures { asked result ≡ command_of (word.now ∷ name.now ∷ []) }
    {
        if word == "map" {
            return Command::Map(name);
        }
        if word == "flows" {
            return Command::Flows(name);
        }
        if word == "load" {
            return match load_number(name) {
                Some(number) => Command::Load(number),
                None => Command::Usage,
            };
        }
        Command::Usage
    }

    // .. of a word and two names.
    fn of_two(word: &str, first: &'a str, second: &'a str) -> Command<'a>
        ensures { asked result ≡ command_of (word.now ∷ first.now ∷ second.now ∷ []) }
    {
        if word == "build" {
            return Command::Build {
                policy: first,
                image: second,
                tables: None,
            };
        }
        if word == "boot" {
            return Command::Boot {
                policy: first,
                inputs: second,
            };
        }
        if word == "run" {
            return Command::Run {
                image: first,
                inputs: second,
                tables: None,
            };
        }
        if word == "verify" {
            return Command::Verify {
                image: first,
                policy: second,
            };
        }
        Command::Usage
    }

    // .. of a word and three names, the last of which is that of tables.
    fn of_three(word: &str, first: &'a str, second: &'a str, tables: &'a str) -> Command<'a>
        ensures { asked result ≡ command_of (word.now ∷ first.now ∷ second.now ∷ tables.now ∷ []) }
    {
        if word == "build" {
            if second == tables {
                return Command::Usage;
            }
            return Command::Build {
                policy: first,
                image: second,
                tables: Some(tables),
            };
        }
        if word == "run" {
            return Command::Run {
                image: first,
                inputs: second,
                tables: Some(tables),
            };
        }
        Command::Usage
    }

    /// The command that the words ask for.
    pub(crate) fn parse(words: &'a [String]) -> Command<'a>
        ensures { asked result ≡ command_of (map string_bytes words.now) }
    {
        match words {
            [word, first] => Command::of_one(word.as_str(), first.as_str()),
            [word, first, second] => {
                Command::of_two(word.as_str(), first.as_str(), second.as_str())
            }
            [word, first, second, third] => Command::of_three(
                word.as_str(),
                first.as_str(),
                second.as_str(),
                third.as_str(),
            ),
            _ => Command::Usage,
        }
    }
}
