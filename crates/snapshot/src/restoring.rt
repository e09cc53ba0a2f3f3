// Restoring: an image taken back.
ghost use Rattle.std.specs.Prelude.{◌≡◌};
ghost use Rattle.common.specs.Refusals.{answer_number};
ghost use Rattle.snapshot.specs.Reading.{given, mark_at, MarksTaken, MarksGiven, ImageRead, RestoredBy};

use crate::lines::take_lines;
use crate::marks::read_mark;
use code::patterns;
use common::Refusal;
use common::sizes::RECORD_SIZE;
use follow::{Sheet, State, code_of, number_at, row};

// The marks of rule i, by `M` record i.
#[tactic(auto, using(crate::proofs::TakingLaws::mark_by))]
fn mark_at(sheet: &Sheet, records: &[u8], i: usize) -> Option<u64>
    ensures { given result ≡ mark_at sheet.now.rule_names sheet.now.rows records.now i }
{
    let name = number_at(&sheet.rule_names, i);
    let n = patterns(code_of(row(&sheet.rows, i)));
    read_mark(row(records, i), name, n)
}

// The marks of the first `count` rules, by a record each.
fn take_marks(sheet: &Sheet, count: usize, records: &[u8], positions: &mut [u64]) -> Option<()>
    ensures { MarksTaken (mark_at sheet.now.rule_names sheet.now.rows records.now) count positions.old positions.new result }
{
    // Kept: a test and a part. Of what `get_mut(..count)?` lends, a proof knows the length afterwards, and no element.
    if positions.len() < count {
        return None;
    }
    for (i, held) in positions[..count].iter_mut().enumerate() {
        *held = mark_at(sheet, records, i)?;
    }
    Some(())
}

// The state with the marks that the records after the lines give: as many records as rules.
#[tactic(auto, using(crate::proofs::GivenLaws::given_uneven, crate::proofs::GivenLaws::given_marks))]
fn give_marks(state: &mut State, records: &[u8]) -> Result<(), Refusal>
    ensures { MarksGiven state.old records.now result state.new }
{
    let count = state.sheet.rule_count;
    if records.len() / RECORD_SIZE != count {
        return Err(Refusal::ImageTurnedAway);
    }
    take_marks(&state.sheet, count, records, &mut state.positions).ok_or(Refusal::ImageTurnedAway)
}

// The state that an image says.
#[tactic(auto, using(crate::proofs::ImageLaws::image_ways))]
fn read_image(image: &[u8]) -> Result<State, Refusal>
    ensures { ImageRead image.now result }
{
    if image.len() % RECORD_SIZE != 0 {
        return Err(Refusal::ImageTurnedAway);
    }
    let (mut state, records) = take_lines(image)?;
    give_marks(&mut state, records)?;
    Ok(state)
}

// The monitor that an image says, in place of this one; or refused, with this monitor, where the image is turned away.
pub fn restore(monitor: &mut State, image: &[u8]) -> Result<(), Refusal>
    ensures { RestoredBy monitor.old image.now (answer_number result) monitor.new }
{
    *monitor = read_image(image).map_err(|_| Refusal::ImageTurnedAway)?;
    Ok(())
}
