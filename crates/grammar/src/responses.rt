// Slots, templates and responses.
ghost use Rattle.grammar.specs.Parser.{slot_of, slots_of, template_of, response_of};
ghost use Rattle.grammar.specs.Readings.{ReadsAs};

use crate::leaves::{mark_at, place_at, word_at};
use lexer::words::WordKind;
use lexer::{Lexeme, next};

// A name, or # and a place.
fn slot(s: &[u8]) -> Option<&[u8]>
    ensures { ReadsAs slot_of s.now result }
{
    match mark_at(s, b'#') {
        Some(place) => place_at(place),
        None => word_at(s, WordKind::Name),
    }
}

// At most k slots, and >.
fn slots(s: &[u8], k: usize) -> Option<&[u8]>
    ensures { ReadsAs (slots_of k) s.now result }
{
    if let Some(left) = mark_at(s, b'>') {
        return Some(left);
    }
    if k == 0 {
        return None;
    }
    let left = slot(s)?;
    slots(left, k - 1)
}

// A template.
fn template(s: &[u8]) -> Option<&[u8]>
    ensures { ReadsAs template_of s.now result }
{
    let left = mark_at(s, b'<')?;
    slots(left, 4)
}

// A response.
pub fn response(s: &[u8]) -> Option<&[u8]>
    ensures { ReadsAs response_of s.now result }
{
    let (token, left) = next(s)?;
    match token {
        Lexeme::Word(WordKind::Pass | WordKind::Hold, _) => Some(left),
        Lexeme::Word(WordKind::Send | WordKind::Anew, _) => template(left),
        _ => None,
    }
}
