// Which buffers make a batch.
ghost use Rattle.std.specs.Prelude.{◌≡◌};
ghost use Rattle.book.specs.Batches.{sizes_fit};

use common::sizes::{RECORD_SIZE, REPLY_SIZE};

// The most records of a batch.
const MAX_BATCH: usize = 512;

// Whether so many bytes are whole records, 512 at most, and so many are 50 for the reply to each. The number of records is looked at before it is
// multiplied, so that no product can wrap.
#[tactic(auto, unfolding(book::specs::Batches::sizes_fit))]
pub fn fits(records: usize, replies: usize) -> bool
    ensures { result ≡ sizes_fit records replies }
{
    let count = records / RECORD_SIZE;
    records % RECORD_SIZE == 0 && count <= MAX_BATCH && replies == count * REPLY_SIZE
}
