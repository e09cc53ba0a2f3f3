// Items, simple patterns, conditions and patterns.
ghost use Rattle.grammar.specs.Parser.{item_of, open_of, items_of, simple_of, condition_of, term_of, pattern_of};
ghost use Rattle.grammar.specs.Readings.{ReadsAs, ReadsAsLevel};

use crate::leaves::{mark_at, word_at};
use lexer::words::WordKind;

// A name, or + and a name.
fn item(s: &[u8]) -> Option<&[u8]>
    ensures { ReadsAs item_of s.now result }
{
    let name = mark_at(s, b'+').unwrap_or(s);
    word_at(name, WordKind::Name)
}

// * and >.
fn open_end(s: &[u8]) -> Option<&[u8]>
    ensures { ReadsAs open_of s.now result }
{
    let close = mark_at(s, b'*')?;
    mark_at(close, b'>')
}

// At most k items, an optional *, and >.
fn items(s: &[u8], k: usize) -> Option<&[u8]>
    ensures { ReadsAs (items_of k) s.now result }
{
    if let Some(left) = mark_at(s, b'>') {
        return Some(left);
    }
    if k == 0 {
        return open_end(s);
    }
    match item(s) {
        Some(left) => items(left, k - 1),
        None => open_end(s),
    }
}

// A simple pattern.
fn simple(s: &[u8]) -> Option<&[u8]>
    ensures { ReadsAs simple_of s.now result }
{
    match mark_at(s, b'<') {
        Some(left) => items(left, 4),
        None => word_at(s, WordKind::Any),
    }
}

// A condition: terms joined by or.
#[cycle(condition_term)]
fn condition(s: &[u8]) -> Option<&[u8]>
    ensures { ReadsAsLevel 1 condition_of s.now result }
{
    let mut at = s;
    loop {
        let left = term(at)?;
        let Some(more) = word_at(left, WordKind::Or) else {
            return Some(left);
        };
        at = more;
    }
}

// A term of a condition.
#[cycle(condition_term)]
fn term(s: &[u8]) -> Option<&[u8]>
    ensures { ReadsAsLevel 0 term_of s.now result }
{
    let mut at = s;
    while let Some(left) = word_at(at, WordKind::Not) {
        at = left;
    }
    let Some(inside) = mark_at(at, b'(') else {
        return simple(at);
    };
    let close = condition(inside)?;
    mark_at(close, b')')
}

// A pattern. It is no part of the cycle of pasts, whose frames on the stack then hold nothing of it.
#[inline(never)]
pub fn pattern(s: &[u8]) -> Option<&[u8]>
    ensures { ReadsAsLevel 2 pattern_of s.now result }
{
    let Some(inside) = mark_at(s, b'[') else {
        return simple(s);
    };
    let close = condition(inside)?;
    mark_at(close, b']')
}
