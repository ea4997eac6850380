//! The words of a line, in turn.
ghost use Rattle.std.specs.Prelude.{◌≡◌, length};
ghost use Rattle.record_text.specs.Remaining.{TakesWord, words_remaining};
ghost use Rattle.record_text.specs.Words.{words_of};

use text_words::cut;

/// The words of a line that remain.
#[derive(Clone, Copy)]
pub(crate) struct Words<'a> {
    rest: Option<&'a [u8]>,
}

impl<'a> Words<'a> {
    /// All words of a line; there is at least one.
    #[tactic(auto, unfolding(crate::specs::Words::words_of))]
    pub(crate) fn of(line: &'a [u8]) -> Words<'a>
        ensures { words_remaining result ≡ words_of line.now }
    {
        Words { rest: Some(line) }
    }

    /// The first word that remains, if there is one.
    pub(crate) fn next_word(&mut self) -> Option<&'a [u8]>
        ensures { TakesWord (words_remaining self.old) result (words_remaining self.new) }
    {
        let (word, rest) = cut(self.rest?, b' ');
        self.rest = rest;
        Some(word)
    }

    /// How many words remain.
    #[tactic(auto, using(text_words::proofs::Cuts::counts))]
    pub(crate) fn count(&self) -> usize
        ensures { result ≡ length (words_remaining self.now) }
    {
        match self.rest {
            None => 0,
            Some(rest) => rest.iter().filter(|c| **c == b' ').count() + 1,
        }
    }
}
