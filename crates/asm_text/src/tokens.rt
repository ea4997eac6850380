//! The tokens of a line.
ghost use Rattle.std.specs.Prelude.{◌≡◌, ◌+◌, ◌^◌, ◌<◌, ◌≤◌, IfSome, length, not, position, suc, if◌then◌else◌};
ghost use Rattle.asm_text.specs.Tokens.{begins_comment, is_blank, is_mark, is_word_byte, tokens_of, word_size, IsPastBlanks};
ghost use Rattle.asm_text.specs.Shown.{shown};

fn is_blank(c: u8) -> bool
    ensures { result ≡ is_blank c }
{
    c == b' ' || c == b'\t' || c == b'\r'
}

fn is_mark(c: u8) -> bool
    ensures { result ≡ is_mark c }
{
    c == b',' || c == b':' || c == b'=' || c == b'+' || c == b'-'
}

fn begins_comment(c: u8) -> bool
    ensures { result ≡ begins_comment c }
{
    c == b';'
}

fn is_word_byte(c: u8) -> bool
    ensures { result ≡ is_word_byte c }
{
    !(is_blank(c) || is_mark(c) || begins_comment(c))
}

/// A token, and what follows it.
#[derive(Clone, Copy)]
pub(crate) struct Token<'a> {
    pub word: &'a [u8],
    pub rest: &'a [u8],
}

/// What comes next in a line: a token, where there is one, and how many bytes of the line are left
/// where it begins, or at the end.
#[derive(Clone, Copy)]
pub(crate) struct Next<'a> {
    pub left: usize,
    pub token: Option<Token<'a>>,
}

// What is left of a line behind its blanks.
#[tactic(auto, using(crate::proofs::TokenLaws::blank_here, crate::proofs::TokenLaws::past_blanks))]
fn behind_blanks(line: &[u8]) -> &[u8]
    ensures tokens { tokens_of result.now ≡ tokens_of line.now }
    ensures past { IsPastBlanks result.now }
    ensures within { length result.now ≤ length line.now }
{
    let mut rest = line;
    while let Some((c, more)) = rest.split_first() {
        if !is_blank(*c) {
            break;
        }
        rest = more;
    }
    rest
}

// Where the first byte stands that is none of a word.
fn end_of_word(line: &[u8]) -> Option<usize>
    ensures { result ≡ position (λ c. not (is_word_byte c)) line.now }
{
    line.iter().position(|c| !is_word_byte(*c))
}

// How many bytes of a word stand at the head.
#[tactic(auto, using(crate::proofs::TokenLaws::size_by_position, crate::proofs::TokenLaws::size_without_position, crate::proofs::TokenLaws::within_line))]
fn word_size(line: &[u8]) -> usize
    ensures size { result ≡ word_size line.now }
    ensures within { result ≤ length line.now }
{
    match end_of_word(line) {
        Some(at) => at,
        None => line.len(),
    }
}

// How many bytes a token has that begins with this byte.
fn token_size(c: u8, behind: &[u8]) -> usize
    requires { 1 + length behind.now < 2 ^ 64 }
    ensures size { result ≡ (if is_mark c then 1 else suc (word_size behind.now)) }
    ensures within { result ≤ 1 + length behind.now }
{
    if is_mark(c) { 1 } else { 1 + word_size(behind) }
}

/// What comes next in what is left of a line.
#[tactic(auto, using(crate::proofs::TokenLaws::token_here, crate::proofs::TokenLaws::comment_here, crate::proofs::TokenLaws::nothing_here))]
pub(crate) fn first_token(line: &[u8]) -> Next<'_>
    ensures tokens { shown result ≡ tokens_of line.now }
    ensures shorter { IfSome result.token (λ t. length t.rest.now < length line.now) }
{
    let line = behind_blanks(line);
    let left = line.len();
    let Some((c, behind)) = line.split_first() else {
        return Next { left, token: None };
    };
    if begins_comment(*c) {
        return Next { left, token: None };
    }
    let (word, rest) = line.split_at(token_size(*c, behind));
    Next {
        left,
        token: Some(Token { word, rest }),
    }
}
