// One round.
ghost use Rattle.round.specs.Running.{RoundRuns, round_end};

use crate::sizes::room_fits;
use batch::handle_batch;
use common::Refusal;
use common::sizes::RECORD_SIZE;
use snapshot::{keep, restore};

// The first `used` records of the image are restored, the batch is run, and the image is kept in the same buffer, whose bytes past it stay; handed back is how
// many of its records are used now. Refused, where the image buffer is not of 127 records or `used` is above them; then where the image is not accepted; then
// where the other two buffers are no batch: each leaves all buffers as lent. The used number is looked at before it is multiplied, so that no product wraps.
// Every image has room, so keeping is not refused.
#[tactic(auto, using(crate::proofs::RoundLaws::no_room, crate::proofs::RoundLaws::used_within))]
pub fn run_round(
    image: &mut [u8],
    used: u32,
    records: &[u8],
    replies: &mut [u8],
) -> Result<u32, Refusal>
    ensures { RoundRuns image.old used records.now replies.old image.new replies.new (round_end used result) }
{
    if !room_fits(image.len(), used) {
        return Err(Refusal::ImageLength);
    }
    // Kept: `as`. `usize` has no `From<u32>`, and `usize::try_from` would need a refusal that cannot come.
    let len = used as usize * RECORD_SIZE;
    let mut monitor = monitor::new();
    restore(&mut monitor, &image[..len])?;
    handle_batch(&mut monitor, records, replies)?;
    keep(&monitor, image)
}
