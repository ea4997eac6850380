//! A text cut at a byte, and its first line.
ghost use Rattle.std.specs.Prelude.{◌≡◌, ◌<◌, ◌==◌, ◌∷◌, IfNone, IfSome, length, position};
ghost use Rattle.text_words.specs.Parts.{lines_of, parts_of, parts_remaining};

// The position of the first such byte.
fn position_of(text: &[u8], byte: u8) -> Option<usize>
    ensures value { result ≡ position (λ c. c == byte) text.now }
    ensures within { IfSome result (λ at. at < length text.now) }
{
    text.iter().position(|c| *c == byte)
}

/// What stands before the first such byte, and what stands behind it, if there is one.
#[tactic(auto, using(crate::proofs::Cuts::cuts))]
pub fn cut(text: &[u8], byte: u8) -> (&[u8], Option<&[u8]>)
    ensures parts { parts_of byte text.now ≡ result.0.now ∷ parts_remaining byte result.1 }
    ensures whole { IfNone result.1 (result.0.now ≡ text.now) }
    ensures shorter { IfSome result.1 (λ rest. length rest.now < length text.now) }
{
    match position_of(text, byte) {
        None => (text, None),
        Some(at) => {
            let (before, _) = text.split_at(at);
            let (_, behind) = text.split_at(at + 1);
            (before, Some(behind))
        }
    }
}

/// The first line of a text that isn't empty, and the text behind it.
#[tactic(auto, using(crate::proofs::Cuts::first_lines))]
pub fn first_line(text: &[u8]) -> (&[u8], &[u8])
    requires { 0 < length text.now }
    ensures lines { lines_of text.now ≡ result.0.now ∷ lines_of result.1.now }
    ensures shorter { length result.1.now < length text.now }
{
    match cut(text, b'\n') {
        (line, Some(behind)) => (line, behind),
        (line, None) => (line, &[]),
    }
}
