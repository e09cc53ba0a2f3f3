// An event's text (document 01: act), read in one pass: whether it is in the language, and the ids of its roles.
ghost use Rattle.std.specs.Prelude.{◌≡◌};
ghost use Rattle.code.specs.Events.{event_of, event_line_of, read_answer, ids_answer, event_answer};

use crate::ids::{UNHELD, id_of};
use common::Refusal;
use common::sizes::EVENT_SIZE;
use lexer::{Lexeme, WordKind, next};

// An event (document 01: act): the ids of its roles, of which len count.
// Kept: a length beside an array. Memory is fixed, and an event is copied, which the kit's `ArrayVec` is not; `roles` lends those that count.
#[derive(Clone, Copy)]
pub struct Event {
    pub len: usize,
    pub roles: [u8; EVENT_SIZE],
}

impl Event {
    // The roles that count; all four where the length is more than that.
    pub fn roles(&self) -> &[u8]
        ensures { result.now ≡ event_of self.now }
    {
        &self.roles[..self.len.min(EVENT_SIZE)]
    }
}

// An event's text, read: the ids of its names, and whether one of them is not held; None where the text is not in the language. A name that is not held does
// not end the pass: what follows may not be in the language, and that is told first.
fn read(text: &[u8], names: &[u64]) -> Option<(Event, bool)>
    ensures { result ≡ read_answer (event_line_of names.now text.now) }
{
    let mut roles = [0u8; EVENT_SIZE];
    let mut len = 0;
    let mut unknown = false;
    let mut left = text;
    while let Some((lexeme, after)) = next(left) {
        let Lexeme::Word(kind, word) = lexeme else {
            return None;
        };
        if kind != WordKind::Name {
            return None;
        }
        if EVENT_SIZE <= len {
            return None;
        }
        let id = id_of(word, names);
        roles[len] = id;
        len += 1;
        unknown |= id == UNHELD;
        left = after;
    }
    Some((Event { len, roles }, unknown))
}

// The ids of an event's names, 127 for one that is not held; None where the text is not in the language.
pub fn event_ids(text: &[u8], names: &[u64]) -> Option<Event>
    ensures { result ≡ ids_answer (event_line_of names.now text.now) }
{
    let (event, _) = read(text, names)?;
    Some(event)
}

// The event that a text says, with names that are held; or refusal 4 or 6.
pub fn event_line(text: &[u8], names: &[u64]) -> Result<Event, Refusal>
    ensures { result ≡ event_answer (event_line_of names.now text.now) }
{
    match read(text, names) {
        Some((event, false)) => Ok(event),
        Some((_, true)) => Err(Refusal::NotDeclared),
        None => Err(Refusal::NotInLanguage),
    }
}
