// The library for other languages: calls over byte buffers and numbers. `stand_c` exports them under their C names.
// Kept: as many parameters as C's calls have, which pass them one by one.
//
// Every call takes any bytes of any length and keeps nothing between calls. Where sizes do not fit it says so by its number and writes nothing.
#![tactic(auto)]

mod judging;
mod numbers;
mod operations;
mod sessions;
mod sizes;

ghost use Rattle.std.specs.Prelude.{◌≡◌};
ghost use Rattle.stand.specs.Calls.{SessionRun};
ghost use Rattle.stand.specs.Kinds.{OperationsRun};
ghost use Rattle.stand.specs.Rounds.{StandRuns};
ghost use Rattle.stand.specs.Sheets.{sheet_judged};

use common::Refusal;
use common::sizes::RECORD_SIZE;
use judge::SheetView;
use judging::after;
use numbers::{answered, refused};
use round::run_round;
use sessions::Session;

// A batch on the monitor that a host holds as an image: the first `used` records of the image buffer are restored, the batch is run, and the image
// buffer is rewritten; its bytes past the new image stay. Answers the refusal's number times 4,294,967,296 plus the used number: 0 and the new one;
// or 13, 12 or 11, looked at in this order, with all buffers as lent and `used` as it was passed.
pub fn stand_run(image: &mut [u8], used: u32, records: &[u8], replies: &mut [u8]) -> u64
    ensures { StandRuns image.old used records.now replies.old image.new replies.new result }
{
    match run_round(image, used, records, replies) {
        Ok(left) => u64::from(left),
        Err(refusal) => refused(refusal) + u64::from(used),
    }
}

// A whole session from a fresh monitor. Call k has the next lengths[k] bytes of `records` as its record and the next sizes[k] bytes of `replies` as its
// reply buffer; its number goes to numbers[k]. Answers 0; or 11, where the counts differ or the sizes do not add up to the buffers.
pub fn stand_session(
    records: &[u8],
    lengths: &[u32],
    replies: &mut [u8],
    sizes: &[u32],
    numbers: &mut [u8],
) -> u32
    ensures { SessionRun records.now lengths.now sizes.now replies.old replies.new numbers.old numbers.new result }
{
    let session = Session {
        kinds: &[],
        records,
        lengths,
        sizes,
    };
    if !session.fits(replies.len(), numbers.len()) {
        return u32::from(Refusal::BatchLength.number());
    }
    session.run(replies, numbers, &mut []);
    0
}

// A whole session of operations from a fresh monitor. Operation k is a single call where kinds[k] is 0, a batch where it is 1, keeping where it is 2
// and restoring where it is 3; it has the next lengths[k] bytes of `records` and the next sizes[k] bytes of `replies`, its number goes to numbers[k]
// and how many records keeping wrote to counts[k]. Keeping looks at no record, and restoring writes no reply. Answers 0; or 11, where a kind is
// another, the counts differ or the sizes do not add up to the buffers.
pub fn stand_operations(
    kinds: &[u8],
    records: &[u8],
    lengths: &[u32],
    replies: &mut [u8],
    sizes: &[u32],
    numbers: &mut [u8],
    counts: &mut [u32],
) -> u32
    ensures { OperationsRun kinds.now records.now lengths.now sizes.now replies.old replies.new numbers.old numbers.new counts.old counts.new result }
{
    let session = Session {
        kinds,
        records,
        lengths,
        sizes,
    };
    if !session.operations_fit(replies.len(), numbers.len(), counts.len()) {
        return u32::from(Refusal::BatchLength.number());
    }
    session.run(replies, numbers, counts);
    0
}

// The judge on the monitor that a sheet leaves: whole records, handed to a fresh monitor in turn, their replies dropped. Answers the refusal's number
// times 4,294,967,296, and 1 more for yes; 11 where the sheet is not whole records.
pub fn stand_judge(sheet: &[u8], number: u32, records: &[u8]) -> u64
    ensures { result ≡ sheet_judged sheet.now number records.now }
{
    let rest = sheet.len() % RECORD_SIZE;
    if rest != 0 {
        return refused(Refusal::BatchLength);
    }
    let monitor = after(sheet);
    // Kept: a cast. `usize` has no `From<u32>`, and `try_from` would make a refusal that cannot happen.
    answered(SheetView::from(&monitor.sheet).judge(number as usize, records))
}
