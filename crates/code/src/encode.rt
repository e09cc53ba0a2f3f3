// Tokens to code, in one flat pass.
//
// Kept: bytes for kinds, here and where code is read (`patterns`, `follow`, `chain`, `render`). A rule lies in fixed memory, a byte a token, and a match on
// bytes reads it where it lies.
ghost use Rattle.std.specs.Prelude.{◌≡◌};
ghost use Rattle.lexer.specs.Words.{kind_number};
ghost use Rattle.lexer.specs.Tokens.{tokens};
ghost use Rattle.code.specs.Code.{byte_of_kind};
ghost use Rattle.code.specs.Encoded.{Front, LendsCounted, encoded_of};

use crate::ids::{UNHELD, id_of};
use lexer::{Lexeme, WordKind, next};

// A text of a record has no more bytes, and so no more tokens.
const CODE_SIZE: usize = 126;

// The code of a text: its bytes, how many of them count, and whether a name in it is not held.
// Kept: a length beside an array. Memory is fixed, and a code is copied, which the kit's `ArrayVec` is not; `bytes` lends those that count. And `unknown` is a
// flag, no refusal: the code of every text is named, and a rule's name is looked at (refusal 5) before the names in it (refusal 6).
#[derive(Clone, Copy)]
pub struct Encoded {
    pub code: [u8; CODE_SIZE],
    pub len: usize,
    pub unknown: bool,
}

impl Encoded {
    // The bytes that count; None where the length is more than a code has.
    pub fn bytes(&self) -> Option<&[u8]>
        ensures { LendsCounted self.now result }
    {
        self.code.get(..self.len)
    }
}

// The byte of a word that is no name, by its kind: a keyword's letter, or the digit. Kept: a function, as it is the definition's table.
#[tactic(auto, unfolding(crate::specs::Code::byte_of_kind, lexer::specs::Words::kind_number))]
fn letter(kind: WordKind) -> u8
    ensures { result ≡ byte_of_kind (kind_number kind) }
{
    match kind {
        WordKind::Any => b'a',
        WordKind::Not => b'n',
        WordKind::Or => b'o',
        WordKind::Pass => b'p',
        WordKind::Hold => b'h',
        WordKind::Send => b's',
        WordKind::Anew => b'w',
        WordKind::Digit(digit) if digit < 10 => b'0' + digit,
        _ => 0,
    }
}

// The first token of a text as code: its byte, whether it is a name that is not held, and what is left after it. None where no token is left.
fn front<'a>(text: &'a [u8], names: &[u64]) -> Option<(u8, bool, &'a [u8])>
    ensures { Front names.now text.now result }
{
    let (lexeme, left) = next(text)?;
    match lexeme {
        Lexeme::Word(kind, word) => match kind {
            WordKind::Name => {
                let id = id_of(word, names);
                Some((128 + id, id == UNHELD, left))
            }
            _ => Some((letter(kind), false, left)),
        },
        Lexeme::Mark(byte) => Some((byte, false, left)),
        Lexeme::Other(_) => Some((0, false, left)),
    }
}

// The tokens of a text as code. A text with more than 126 tokens is cut there.
pub fn encode(text: &[u8], names: &[u64]) -> Encoded
    ensures { result ≡ encoded_of names.now (tokens text.now) }
{
    let mut code = [0u8; CODE_SIZE];
    let mut len = 0;
    let mut unknown = false;
    let mut left = text;
    // Kept: a loop over what is left, here and in `events`. An iterator of tokens would hold the same slice, and the invariant, which speaks of what is left,
    // would have to take it out again.
    while let Some((byte, unheld, after)) = front(left, names) {
        if CODE_SIZE <= len {
            break;
        }
        code[len] = byte;
        len += 1;
        unknown |= unheld;
        left = after;
    }
    Encoded { code, len, unknown }
}
