//! The forms of a program's commands, as a table.
ghost use Rattle.std.specs.Prelude.{◌≡◌, length, map, option_map, string_bytes};
ghost use Rattle.std.specs.List.{find};
ghost use Rattle.command_shell.specs.Forms.{command_in, fits, form_shown, taken, taken_shown};

/// A form of a command.
#[derive(Clone, Copy, Debug)]
pub struct Form<C> {
    /// Its first word.
    pub word: &'static str,
    /// What the words behind it are called.
    pub parameters: &'static [&'static str],
    /// The command that has this form.
    pub command: C,
}

/// A program of commands.
#[derive(Clone, Copy, Debug)]
pub struct Program<'p, C> {
    /// With which the lines of its errors begin.
    pub name: &'p str,
    /// The forms of its commands, in the order in which they are told.
    pub forms: &'p [Form<C>],
}

impl<C> Form<C> {
    // Whether it begins with this word, and so many stand behind that.
    fn fits(&self, word: &str, count: usize) -> bool
        ensures { result ≡ fits word.now count (form_shown self.now) }
    {
        word == self.word && count == self.parameters.len()
    }
}

// The first form that begins with this word, behind which stand so many.
fn find_form<C: Copy>(forms: &[Form<C>], word: &str, count: usize) -> Option<Form<C>>
    ensures { result ≡ find (λ f. fits word.now count (form_shown f)) forms.now }
{
    forms.iter().copied().find(|form| form.fits(word, count))
}

impl<C: Copy> Program<'_, C> {
    // The command of the first form that begins with this word, behind which these stand.
    fn command_behind<'a>(&self, word: &str, arguments: &'a [String]) -> Option<(C, &'a [String])>
        ensures { option_map taken_shown result ≡ option_map (taken (map string_bytes arguments.now)) (find (fits word.now (length arguments.now)) (map form_shown self.now.forms.now)) }
    {
        let form = find_form(self.forms, word, arguments.len())?;
        Some((form.command, arguments))
    }

    /// The command whose form the words after the program's name have, the first such, and the words behind its own;
    /// `None` where they have no form.
    #[tactic(auto, using(crate::proofs::FormFound::words_cut, crate::proofs::FormFound::words_none))]
    pub fn command<'a>(&self, words: &'a [String]) -> Option<(C, &'a [String])>
        ensures { option_map taken_shown result ≡ command_in (map form_shown self.now.forms.now) (map string_bytes words.now) }
    {
        match words.split_first() {
            None => None,
            Some((word, arguments)) => self.command_behind(word.as_str(), arguments),
        }
    }
}
