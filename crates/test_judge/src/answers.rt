// The judge's answers in four bytes.
ghost use Rattle.std.specs.Prelude.{◌≡◌, true};
ghost use Rattle.common.specs.Refusals.{refusal_number};
ghost use Rattle.test_judge.specs.Answers.{refusal_shown, shown_as};

use common::Refusal;

// `R`, a space and the number in two digits.
fn refused(refusal: Refusal) -> [u8; 4]
    ensures { result ≡ refusal_shown (refusal_number refusal) }
{
    let number = refusal.number();
    [b'R', b' ', b'0' + number / 10, b'0' + number % 10]
}

// An answer as it is printed and stored.
pub fn shown(answer: Result<bool, Refusal>) -> [u8; 4]
    ensures { result ≡ shown_as answer }
{
    match answer {
        Ok(true) => *b"yes ",
        Ok(false) => *b"no  ",
        Err(refusal) => refused(refusal),
    }
}

// Whether an answer is the stored one. It is said only of an answer that is.
pub fn agrees(answer: &[u8; 4], stored: &[u8]) -> bool
    ensures { result ≡ true → answer.now ≡ stored.now }
{
    answer.as_slice() == stored
}
