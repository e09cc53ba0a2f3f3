// Events from bytes.
ghost use Rattle.std.specs.Prelude.{◌<◌, IfSome, length};

use code::Event;
use common::sizes::EVENT_SIZE;

// How many roles the table has.
const ROLES: u8 = 8;

// The event of these ids, the first four.
fn event_of(ids: &[u8]) -> Event {
    let mut roles = [0u8; EVENT_SIZE];
    for (role, id) in roles.iter_mut().zip(ids) {
        *role = *id;
    }
    Event {
        len: ids.len(),
        roles,
    }
}

// The event that begins a list, and the list after it. None where the list ends, or has no event there.
pub fn next(events: &[u8]) -> Option<(Event, &[u8])>
    ensures { IfSome result (λ found. length found.1.now < length events.now) }
{
    let (len, rest) = events.split_first()?;
    let len = usize::from(*len);
    if EVENT_SIZE < len {
        return None;
    }
    let (ids, left) = rest.split_at_checked(len)?;
    if ids.iter().all(|id| *id < ROLES) {
        return Some((event_of(ids), left));
    }
    None
}
