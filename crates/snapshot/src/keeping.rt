// Keeping: the image of a monitor in a lent buffer.
ghost use Rattle.common.specs.Refusals.{answer_number};
ghost use Rattle.snapshot.specs.Written.{KeptAs, count_written};

use crate::writing::put_image;
use common::Refusal;
use common::sizes::{MAX_ROLES, MAX_RULES, RECORD_SIZE};
use follow::State;

// The image in front of the buffer, the rest of which stays, and how many records it is; or refused, with the buffer as lent, where it is too short. That is
// looked at first.
#[tactic(auto, using(crate::proofs::KeepLaws::kept_short))]
pub fn keep(monitor: &State, image: &mut [u8]) -> Result<u32, Refusal>
    ensures { KeptAs monitor.now image.old (answer_number result) (count_written result) image.new monitor.now }
{
    let roles = monitor.sheet.role_count.min(MAX_ROLES).saturating_sub(1);
    let rules = monitor.sheet.rule_count.min(MAX_RULES);
    let count = roles + rules + rules;
    if image.len() < count * RECORD_SIZE {
        return Err(Refusal::ImageLength);
    }
    put_image(monitor, roles, rules, image);
    // Kept: `as`. The number is 127 at most; `u32::try_from` would need a refusal that cannot come.
    Ok(count as u32)
}
