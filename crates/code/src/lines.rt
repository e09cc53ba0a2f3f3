// Lines read to ids: what the monitor needs of a text that is in the language.
ghost use Rattle.std.specs.Prelude.{◌≡◌};
ghost use Rattle.code.specs.Lines.{after_first, name_in, few_in, rule_line_of, role_line_of};

use crate::count::patterns;
use crate::encode::{Encoded, encode};
use common::sizes::MAX_PATTERNS;
use lexer::{first_word, next};

// A rule line: its name, its code after `rule NAME :`, and whether its past has few enough patterns.
// Kept: `fits` is a flag, no refusal: refusals 5 and 6 come before 7, and `follow` tells them in their order.
#[derive(Clone, Copy)]
pub struct RuleLine {
    pub name: u64,
    pub fits: bool,
    pub body: Encoded,
}

// A role line: its name, and its parent's place among the names held.
#[derive(Clone, Copy)]
pub struct RoleLine {
    pub name: u64,
    pub parent: Option<usize>,
}

// What is left after the first token; all of it where there is none.
fn after_first(text: &[u8]) -> &[u8]
    ensures { result.now ≡ after_first text.now }
{
    match next(text) {
        Some((_, left)) => left,
        None => text,
    }
}

// The word in front, packed.
fn leading(text: &[u8]) -> u64
    ensures { result ≡ name_in 0 text.now }
{
    names::pack(first_word(text))
}

// Whether a rule's past has few enough patterns: the limit stands here alone, and `follow` answers 7 by it.
fn few(body: &Encoded) -> bool
    ensures { result ≡ few_in body.now }
{
    match body.bytes() {
        Some(code) => patterns(code) <= MAX_PATTERNS,
        None => false,
    }
}

// A rule line, read: the name after the first word, and the code of what stands after the name and the colon.
pub fn rule_line(text: &[u8], names: &[u64]) -> RuleLine
    ensures { result ≡ rule_line_of names.now text.now }
{
    let named = after_first(text);
    let name = leading(named);
    let colon = after_first(named);
    let body = encode(after_first(colon), names);
    let fits = few(&body);
    RuleLine { name, fits, body }
}

// A role line, read: the name after the first word, and the name after the third.
pub fn role_line(text: &[u8], names: &[u64]) -> RoleLine
    ensures { result ≡ role_line_of names.now text.now }
{
    let second = after_first(text);
    let name = leading(second);
    let under = after_first(second);
    let parent = names::find(names, leading(after_first(under)));
    RoleLine { name, parent }
}
