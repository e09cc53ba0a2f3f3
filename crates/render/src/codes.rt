// Rule code written out again: each byte as the token that it stands for.
ghost use Rattle.std.specs.Prelude.{◌≡◌, ◌&&◌, map, []};
ghost use Rattle.lexer.specs.Render.{gap, render};
ghost use Rattle.columns.specs.Writing.{Writes};
ghost use Rattle.render.specs.Decoded.{keyword_of, is_word, bytes_of, token_of, name_in};

use columns::{put, text, word};
use follow::number_at;

// The keyword of a letter; for any other byte nothing.
#[tactic(auto, unfolding(crate::specs::Decoded::keyword_of))]
fn keyword(b: u8) -> &'static [u8]
    ensures { result.now ≡ keyword_of b }
{
    match b {
        b'a' => b"any",
        b'n' => b"not",
        b'o' => b"or",
        b'p' => b"pass",
        b'h' => b"hold",
        b's' => b"send",
        b'w' => b"anew",
        _ => b"",
    }
}

// Whether a byte of code stands for a word.
#[tactic(auto, unfolding(crate::specs::Decoded::is_word))]
fn is_word(b: u8) -> bool
    ensures { result ≡ is_word b }
{
    matches!(b, b'0'..=b'9' | b'a'..=b'z' | 128..)
}

// The bytes of a token.
fn token(out: &mut [u8], at: usize, b: u8, names: &[u64]) -> usize
    ensures { Writes at (bytes_of (name_in names.now) b) out.old out.new result }
{
    match b {
        128.. => word(out, at, number_at(names, usize::from(b - 128))),
        b'a'..=b'z' => text(out, at, keyword(b)),
        _ => put(out, at, b),
    }
}

// A space, where a word stands before and another follows.
fn space(out: &mut [u8], at: usize, after: bool, b: u8) -> usize
    ensures { Writes at (gap (after && is_word b) []) out.old out.new result }
{
    if after && is_word(b) {
        return put(out, at, b' ');
    }
    at
}

// A rule's code, token by token.
pub fn tokens(out: &mut [u8], at: usize, code: &[u8], names: &[u64]) -> usize
    ensures { Writes at (render (map (token_of (name_in names.now)) code.now)) out.old out.new result }
{
    let mut next = at;
    let mut after = false;
    for &b in code {
        let start = space(out, next, after, b);
        next = token(out, start, b, names);
        after = is_word(b);
    }
    next
}
