// Operations by their kinds, as a host names them.
ghost use Rattle.std.specs.Prelude.{◌≡◌, get_or, set};
ghost use Rattle.snapshot.specs.Written.{count_written};
ghost use Rattle.stand.specs.Done.{done_of, uncounted};
ghost use Rattle.stand.specs.Kinds.{kind_of, named_by, all_known, Named, DoneAs};

use batch::handle_batch;
use common::Refusal;
use follow::State;
use monitor::handle;
use snapshot::{keep, restore};

// What a host does with a monitor.
#[derive(Clone, Copy, Debug, PartialEq, Eq)]
pub enum Operation {
    Call,
    Batch,
    Keep,
    Restore,
}

impl TryFrom<u8> for Operation {
    type Error = Refusal;

    ghost try_from_gives = { λ kind operation. operation ≡ named_by kind };

    // The operation that a kind names.
    fn try_from(kind: u8) -> Result<Operation, Refusal> {
        match kind {
            0 => Ok(Operation::Call),
            1 => Ok(Operation::Batch),
            2 => Ok(Operation::Keep),
            3 => Ok(Operation::Restore),
            _ => Err(Refusal::BatchLength),
        }
    }
}

// Whether every kind is one of the four.
pub fn all_known(kinds: &[u8]) -> bool
    ensures { result ≡ all_known kinds.now }
{
    kinds.iter().all(|kind| Operation::try_from(*kind).is_ok())
}

// The operation of a kind; a single call where the kind names none.
fn operation_of(kind: u8) -> Operation
    ensures { Named kind result }
{
    Operation::try_from(kind).unwrap_or(Operation::Call)
}

// The operation at a place; past the last kind stand single calls.
pub fn operation_at(kinds: &[u8], k: usize) -> Operation
    ensures { Named (get_or kinds.now k 0) result }
{
    operation_of(kinds.get(k).copied().unwrap_or(0))
}

// A count in its place, where there is one.
// Kept: a test and an index. After a write through a slice's `get_mut` a proof knows how long the slice is, and none of its elements.
pub fn put_count(counts: &mut [u32], k: usize, n: u32)
    ensures { counts.new ≡ set counts.old k n }
{
    if k < counts.len() {
        counts[k] = n;
    }
}

// How many records an operation wrote, by its answer; a refused one wrote none.
pub fn written(answer: Result<u32, Refusal>) -> u32
    ensures { result ≡ count_written answer }
{
    answer.unwrap_or(0)
}

// The answer of an operation that writes no record.
fn uncounted(answer: Result<(), Refusal>) -> Result<u32, Refusal>
    ensures { result ≡ uncounted answer }
{
    answer.map(|()| 0)
}

// One operation: keeping into the reply buffer, restoring from the records, a batch, or a single call. Answers how many records it wrote, which keeping
// alone does.
pub fn operate(
    operation: Operation,
    monitor: &mut State,
    records: &[u8],
    replies: &mut [u8],
) -> Result<u32, Refusal>
    ensures { DoneAs (kind_of operation) monitor.old records.now replies.old replies.new (done_of result monitor.new) }
{
    match operation {
        Operation::Call => uncounted(handle(monitor, records, replies)),
        Operation::Batch => uncounted(handle_batch(monitor, records, replies)),
        Operation::Keep => keep(monitor, replies),
        Operation::Restore => uncounted(restore(monitor, records)),
    }
}
