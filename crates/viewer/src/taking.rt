// What becomes of a record: a refusal, which changes nothing, or a line that is declared, or an act, which is always committed.
ghost use Rattle.viewer.specs.Views.{Takes};

use crate::view::Taken;
use common::Refusal;
use follow::State;
use frame::text;
use intake::{Request, ask, declare, role_names};

// What becomes of a record, in the order of the table of refusals.
pub fn take(state: &mut State, bytes: &[u8]) -> Result<Taken, Refusal>
    ensures { Takes state.old bytes.now state.new result }
{
    match ask(bytes, role_names(&state.sheet))? {
        Request::Line => {
            let name = declare(state, text(bytes))?;
            Ok(Taken::Declared(name))
        }
        Request::Event(event) => {
            state.commit(event);
            Ok(Taken::Committed)
        }
    }
}
