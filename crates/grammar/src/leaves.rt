// The readers of one token. A reader answers what is left of the text after its form, or None where the text does not begin with it.
ghost use Rattle.std.specs.Prelude.{◌≡◌};
ghost use Rattle.lexer.specs.Words.{kind_number};
ghost use Rattle.lexer.specs.Tokens.{tokens};
ghost use Rattle.grammar.specs.Parsed.{mark_is, word_is, place_is, is_none};
ghost use Rattle.grammar.specs.Readings.{ReadsAs};

use lexer::words::WordKind;
use lexer::{Lexeme, next};

// The mark b.
pub fn mark_at(s: &[u8], b: u8) -> Option<&[u8]>
    ensures { ReadsAs (mark_is b) s.now result }
{
    let (token, left) = next(s)?;
    match token {
        Lexeme::Mark(mark) => (mark == b).then_some(left),
        _ => None,
    }
}

// A word of a kind.
pub fn word_at(s: &[u8], kind: WordKind) -> Option<&[u8]>
    ensures { ReadsAs (word_is (kind_number kind)) s.now result }
{
    let (token, left) = next(s)?;
    match token {
        Lexeme::Word(found, _) => (found == kind).then_some(left),
        _ => None,
    }
}

// A place in an event: one of the digits 1 to 4.
pub fn place_at(s: &[u8]) -> Option<&[u8]>
    ensures { ReadsAs place_is s.now result }
{
    let (token, left) = next(s)?;
    match token {
        Lexeme::Word(WordKind::Digit(1..=4), _) => Some(left),
        _ => None,
    }
}

// Whether no token is left.
pub fn ends(s: &[u8]) -> bool
    ensures { result ≡ is_none (tokens s.now) }
{
    next(s).is_none()
}
