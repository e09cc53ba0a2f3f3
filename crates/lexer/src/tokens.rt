// The first token of a text, and what is left after it.
ghost use Rattle.lexer.specs.First.{FirstToken};

use crate::classes::class_of;
use crate::words::{WordKind, skip, word, word_kind};

// A token in front of a text: a word, with its kind; a mark (a class 5 byte); or a byte that stands in no token.
#[derive(Clone, Copy, Debug, PartialEq, Eq)]
pub enum Lexeme<'a> {
    Word(WordKind, &'a [u8]),
    Mark(u8),
    Other(u8),
}

// The first token, and what is left after it; None where no token is left.
pub fn next(s: &[u8]) -> Option<(Lexeme<'_>, &[u8])>
    ensures { FirstToken s.now result }
{
    let t = skip(s);
    let (first, left) = t.split_first()?;
    if class_of(*first) == 5 {
        return Some((Lexeme::Mark(*first), left));
    }
    let w = word(t);
    if w.is_empty() {
        return Some((Lexeme::Other(*first), left));
    }
    Some((Lexeme::Word(word_kind(w), w), &t[w.len()..]))
}
