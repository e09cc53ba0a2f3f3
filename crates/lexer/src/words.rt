// Words as parts of the text, and their kinds.
ghost use Rattle.std.specs.Prelude.{◌≡◌};
ghost use Rattle.std.specs.List.{list_all};
ghost use Rattle.lexer.specs.Class.{wordy, spacey};
ghost use Rattle.lexer.specs.Run.{run, after};
ghost use Rattle.lexer.specs.Words.{kind_of, name_like, digit_kind, kind_number};
ghost use Rattle.lexer.specs.Tokens.{first_word};

use crate::classes::{class_of, is_wordy};
use common::sizes::NAME_SIZE;

// The kinds of words: a name; each reserved word; the word of one digit; any other word.
#[derive(Clone, Copy, Debug, PartialEq, Eq)]
pub enum WordKind {
    Name,
    Role,
    Under,
    Rule,
    Any,
    Not,
    Or,
    Pass,
    Hold,
    Send,
    Anew,
    Digit(u8),
    Other,
}

// The word that a text begins with, as a part of it; empty where it begins with none.
pub fn word(s: &[u8]) -> &[u8]
    ensures { result.now ≡ run wordy s.now }
{
    let n = s.iter().take_while(|b| is_wordy(**b)).count();
    &s[..n]
}

// Whether all bytes are spaces. Kept: a fold, as in `all_classed`.
fn blank(bytes: &[u8]) -> bool
    ensures { result ≡ list_all spacey bytes.now }
{
    bytes
        .iter()
        .fold(true, |blank, b| blank & (class_of(*b) == 1))
}

// A rest of a text that has the same rest after its spaces: spaces in front are left out, sixteen at a time. How many is not promised.
fn skip_sixteens(s: &[u8]) -> &[u8]
    ensures { after spacey result.now ≡ after spacey s.now }
{
    let mut left = s;
    while let Some((front, rest)) = left.split_first_chunk::<16>() {
        if !blank(front) {
            break;
        }
        left = rest;
    }
    left
}

// What is left of a text after the spaces that it begins with, one at a time.
fn skip_each(s: &[u8]) -> &[u8]
    ensures { result.now ≡ after spacey s.now }
{
    let n = s.iter().take_while(|b| class_of(**b) == 1).count();
    &s[n..]
}

// What is left of a text after its spaces. Between words stands mostly one; the many are those that a record is filled up with.
// Kept: not inlined, so that `skip` is small.
#[inline(never)]
fn skip_all(s: &[u8]) -> &[u8]
    ensures { result.now ≡ after spacey s.now }
{
    match s {
        [b' ', b' ', ..] => skip_each(skip_sixteens(s)),
        _ => skip_each(s),
    }
}

// What is left of a text after the spaces that it begins with. Most begin with none, and that is told by the first byte, with no call.
#[inline(always)]
pub fn skip(s: &[u8]) -> &[u8]
    ensures { result.now ≡ after spacey s.now }
{
    let Some((first, _)) = s.split_first() else {
        return s;
    };
    if class_of(*first) == 1 {
        return skip_all(s);
    }
    s
}

// The word that a text begins with after the spaces in front, as a part of it.
pub fn first_word(s: &[u8]) -> &[u8]
    ensures { result.now ≡ first_word s.now }
{
    word(skip(s))
}

// Whether a word has 1 to 8 bytes and begins with a letter.
#[tactic(auto, unfolding(crate::specs::Words::name_like))]
fn name_like(w: &[u8]) -> bool
    ensures { result ≡ name_like w.now }
{
    1 <= w.len() && w.len() <= NAME_SIZE && class_of(w[0]) == 2
}

// The kind of a word that is neither reserved nor a name.
#[tactic(auto, unfolding(crate::specs::Words::digit_kind, crate::specs::Words::kind_number))]
fn digit_kind(w: &[u8]) -> WordKind
    ensures { kind_number result ≡ digit_kind w.now }
{
    match w {
        [b @ b'0'..=b'9'] => WordKind::Digit(*b - b'0'),
        _ => WordKind::Other,
    }
}

// The kind of a word: "Reserved words, compared as fixed bytes"; then names, and then the rest.
#[tactic(auto, using(crate::proofs::SameLaws::pointwise_same), unfolding(crate::specs::Words::kind_of, crate::specs::Words::kind_number))]
pub fn word_kind(w: &[u8]) -> WordKind
    ensures { kind_number result ≡ kind_of w.now }
{
    if w == b"role".as_slice() {
        return WordKind::Role;
    }
    if w == b"under".as_slice() {
        return WordKind::Under;
    }
    if w == b"rule".as_slice() {
        return WordKind::Rule;
    }
    if w == b"any".as_slice() {
        return WordKind::Any;
    }
    if w == b"not".as_slice() {
        return WordKind::Not;
    }
    if w == b"or".as_slice() {
        return WordKind::Or;
    }
    if w == b"pass".as_slice() {
        return WordKind::Pass;
    }
    if w == b"hold".as_slice() {
        return WordKind::Hold;
    }
    if w == b"send".as_slice() {
        return WordKind::Send;
    }
    if w == b"anew".as_slice() {
        return WordKind::Anew;
    }
    if name_like(w) {
        return WordKind::Name;
    }
    digit_kind(w)
}
