// Role lines and rule lines, read to their end.
ghost use Rattle.std.specs.Prelude.{◌≡◌, length};
ghost use Rattle.lexer.specs.Tokens.{tokens};
ghost use Rattle.grammar.specs.Parsed.{whole};
ghost use Rattle.grammar.specs.Parser.{role_of, head_of, tail_of, rule_of, depth};
ghost use Rattle.grammar.specs.Readings.{ReadsAs, ReadsAsLevel};
ghost use Rattle.grammar.specs.Lines.{read_line, kind_of_line};

use crate::leaves::{ends, mark_at, word_at};
use crate::pasts::past;
use crate::patterns::pattern;
use crate::responses::response;
use lexer::words::WordKind;

// What a line declares.
#[derive(Clone, Copy, Debug, PartialEq, Eq)]
pub enum LineKind {
    Role,
    Rule,
}

// role, a name, under, a name.
fn role(s: &[u8]) -> Option<&[u8]>
    ensures { ReadsAs role_of s.now result }
{
    let name = word_at(s, WordKind::Role)?;
    let under = word_at(name, WordKind::Name)?;
    let parent = word_at(under, WordKind::Under)?;
    word_at(parent, WordKind::Name)
}

// rule, a name, :.
pub fn head(s: &[u8]) -> Option<&[u8]>
    ensures { ReadsAs head_of s.now result }
{
    let name = word_at(s, WordKind::Rule)?;
    let colon = word_at(name, WordKind::Name)?;
    mark_at(colon, b':')
}

// ; a pattern ; a response.
fn tail(s: &[u8]) -> Option<&[u8]>
    ensures { ReadsAsLevel 2 tail_of s.now result }
{
    let trigger = mark_at(s, b';')?;
    let semicolon = pattern(trigger)?;
    let answer = mark_at(semicolon, b';')?;
    response(answer)
}

// A rule line.
fn rule(s: &[u8]) -> Option<&[u8]>
    ensures { ReadsAsLevel 6 rule_of s.now result }
{
    let body = head(s)?;
    let trigger = past(body)?;
    tail(trigger)
}

// Whether a text is a role line's.
fn is_role(s: &[u8]) -> bool
    ensures { result ≡ whole (role_of (tokens s.now)) }
{
    role(s).is_some_and(ends)
}

// Whether a text is a rule line's.
fn is_rule(s: &[u8]) -> bool
    ensures { result ≡ whole (rule_of (depth (length s.now)) (tokens s.now)) }
{
    rule(s).is_some_and(ends)
}

// What a text declares; None where it is no line.
pub fn line_kind(s: &[u8]) -> Option<LineKind>
    ensures { result ≡ kind_of_line (read_line s.now) }
{
    if is_rule(s) {
        return Some(LineKind::Rule);
    }
    if is_role(s) {
        return Some(LineKind::Role);
    }
    None
}
