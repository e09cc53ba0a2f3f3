// Many records in one call.
ghost use Rattle.common.specs.Refusals.{answer_number};
ghost use Rattle.batch.specs.Handled.{BatchedAs};

use crate::sizes::fits;
use common::Refusal;
use common::sizes::{RECORD_SIZE, REPLY_SIZE};
use follow::State;
use monitor::handle;

// A batch: each record as a single call, on the monitor that the one before left and on its own 50 bytes of the reply buffer, whatever the replies say. Or
// refused, with the monitor and both buffers as they were, where the buffers are not those of 0 to 512 records and a reply to each.
#[tactic(auto, using(crate::proofs::BatchLaws::begun))]
pub fn handle_batch(monitor: &mut State, records: &[u8], replies: &mut [u8]) -> Result<(), Refusal>
    ensures { BatchedAs monitor.old records.now replies.old (record { number = answer_number result; buffer = replies.new }) monitor.new }
{
    if !fits(records.len(), replies.len()) {
        return Err(Refusal::BatchLength);
    }
    for (i, record) in records.chunks_exact(RECORD_SIZE).enumerate() {
        // Kept: the reply's part by its index. Through `chunks_exact_mut` a proof knows the length of what was written, and no byte of it.
        let at = i * REPLY_SIZE;
        let _ = handle(monitor, record, &mut replies[at..at + REPLY_SIZE]);
    }
    Ok(())
}
