// The lines of an image, taken by a fresh monitor through the same door as any record.
ghost use Rattle.snapshot.specs.Reading.{LineInOrder, LineTaken, LinesTaken};

use common::Refusal;
use common::sizes::RECORD_SIZE;
use follow::State;
use frame::text;
use intake::{Request, ask, declare, role_names};

// The text of a line in its place: a role line stands before every rule line.
fn in_order(state: &mut State, text: &[u8]) -> Result<(), Refusal>
    ensures { LineInOrder state.old text.now result state.new }
{
    let rules = state.sheet.rule_count;
    let roles = state.sheet.role_count;
    declare(state, text)?;
    if rules == 0 || state.sheet.role_count == roles {
        Ok(())
    } else {
        Err(Refusal::ImageTurnedAway)
    }
}

// One record of an image that is to be a line. Its refusal goes on by `?`, whichever it is; `restore` tells each as 12.
fn take_line(state: &mut State, bytes: &[u8]) -> Result<(), Refusal>
    ensures { LineTaken state.old bytes.now result state.new }
{
    match ask(bytes, role_names(&state.sheet))? {
        Request::Line => in_order(state, text(bytes)),
        Request::Event(_) => Err(Refusal::ImageTurnedAway),
    }
}

// The records of byte `L` in front of an image, in order: the state that they leave in a fresh monitor, and the bytes after them.
#[tactic(auto, using(crate::proofs::LinesLaws::taken_none, crate::proofs::LinesLaws::taken_others, crate::proofs::LinesLaws::taken_more))]
pub fn take_lines(image: &[u8]) -> Result<(State, &[u8]), Refusal>
    ensures { LinesTaken image.now result }
{
    let mut state = State::new();
    let mut rest = image;
    // Kept: a loop over what is left, since what is left after the lines is handed back.
    while let Some((record, after)) = rest.split_at_checked(RECORD_SIZE) {
        if record[0] != b'L' {
            return Ok((state, rest));
        }
        take_line(&mut state, record)?;
        rest = after;
    }
    Ok((state, rest))
}
