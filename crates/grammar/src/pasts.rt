// Pasts: the readers of past, sequence, factor and base call one another. What falls is the unread length, and then the level.
ghost use Rattle.std.specs.Prelude.{◌≡◌};
ghost use Rattle.lexer.specs.Tokens.{tokens};
ghost use Rattle.grammar.specs.Parser.{begins, past_of, sequence_of, factor_of, base_of};
ghost use Rattle.grammar.specs.Readings.{ReadsAsLevel, StarsPassed};

use crate::leaves::mark_at;
use crate::patterns::pattern;
use lexer::words::WordKind;
use lexer::{Lexeme, next};

// What is left after the stars in front.
fn stars(s: &[u8]) -> &[u8]
    ensures { StarsPassed s.now result.now }
{
    match mark_at(s, b'*') {
        Some(left) => stars(left),
        None => s,
    }
}

// Whether a factor begins.
#[tactic(auto, using(crate::proofs::LeafLaws::begins_none, crate::proofs::LeafLaws::begins_yes, crate::proofs::LeafLaws::begins_no))]
fn factor_begins(s: &[u8]) -> bool
    ensures { result ≡ begins (tokens s.now) }
{
    matches!(
        next(s),
        Some((Lexeme::Mark(b'<' | b'(' | b'['), _) | (Lexeme::Word(WordKind::Any, _), _))
    )
}

// A past: sequences joined by +.
#[cycle(base_factor_past_sequence)]
pub fn past(s: &[u8]) -> Option<&[u8]>
    ensures { ReadsAsLevel 6 past_of s.now result }
{
    let mut at = s;
    loop {
        let left = sequence(at)?;
        let Some(more) = mark_at(left, b'+') else {
            return Some(left);
        };
        at = more;
    }
}

// A sequence: factors side by side.
#[cycle(base_factor_past_sequence)]
fn sequence(s: &[u8]) -> Option<&[u8]>
    ensures { ReadsAsLevel 5 sequence_of s.now result }
{
    let mut at = s;
    loop {
        let left = factor(at)?;
        if !factor_begins(left) {
            return Some(left);
        }
        at = left;
    }
}

// A factor: a base and its stars.
#[cycle(base_factor_past_sequence)]
fn factor(s: &[u8]) -> Option<&[u8]>
    ensures { ReadsAsLevel 4 factor_of s.now result }
{
    let left = base(s)?;
    Some(stars(left))
}

// A base: a pattern, (), or a past in round brackets.
#[cycle(base_factor_past_sequence)]
fn base(s: &[u8]) -> Option<&[u8]>
    ensures { ReadsAsLevel 3 base_of s.now result }
{
    let Some(inside) = mark_at(s, b'(') else {
        return pattern(s);
    };
    if let Some(left) = mark_at(inside, b')') {
        return Some(left);
    }
    let close = past(inside)?;
    mark_at(close, b')')
}
