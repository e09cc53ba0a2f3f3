// The library's calls under their C names: `rt lib` makes a static library of them, and include/stand.h is its header. A slice passes as a pointer and
// a length.
//
// Each call is one of the crate `stand`, with the same promise.
#![tactic(auto)]

ghost use Rattle.std.specs.Prelude.{◌≡◌};
ghost use Rattle.stand.specs.Calls.{SessionRun};
ghost use Rattle.stand.specs.Kinds.{OperationsRun};
ghost use Rattle.stand.specs.Rounds.{StandRuns};
ghost use Rattle.stand.specs.Sheets.{sheet_judged};

// A batch on the monitor that a host holds as an image.
#[unsafe(no_mangle)]
pub extern "C" fn stand_run(image: &mut [u8], used: u32, records: &[u8], replies: &mut [u8]) -> u64
    ensures { StandRuns image.old used records.now replies.old image.new replies.new result }
{
    stand::stand_run(image, used, records, replies)
}

// A whole session of single calls from a fresh monitor.
#[unsafe(no_mangle)]
pub extern "C" fn stand_session(
    records: &[u8],
    lengths: &[u32],
    replies: &mut [u8],
    sizes: &[u32],
    numbers: &mut [u8],
) -> u32
    ensures { SessionRun records.now lengths.now sizes.now replies.old replies.new numbers.old numbers.new result }
{
    stand::stand_session(records, lengths, replies, sizes, numbers)
}

// A whole session of operations from a fresh monitor.
#[unsafe(no_mangle)]
pub extern "C" fn stand_operations(
    kinds: &[u8],
    records: &[u8],
    lengths: &[u32],
    replies: &mut [u8],
    sizes: &[u32],
    numbers: &mut [u8],
    counts: &mut [u32],
) -> u32
    ensures { OperationsRun kinds.now records.now lengths.now sizes.now replies.old replies.new numbers.old numbers.new counts.old counts.new result }
{
    stand::stand_operations(kinds, records, lengths, replies, sizes, numbers, counts)
}

// The judge on the monitor that a sheet leaves.
#[unsafe(no_mangle)]
pub extern "C" fn stand_judge(sheet: &[u8], number: u32, records: &[u8]) -> u64
    ensures { result ≡ sheet_judged sheet.now number records.now }
{
    stand::stand_judge(sheet, number, records)
}
