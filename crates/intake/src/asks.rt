// What a record asks, by the names held. Nothing is declared here, and nothing changes.
ghost use Rattle.std.specs.Prelude.{◌≡◌};
ghost use Rattle.intake.specs.Asking.{request_as, Asks};

use code::{Event, event_line};
use common::Refusal;
use frame::{RecordKind, framed, text};

// What a record asks that is not refused: a line, to be declared; or an event, to be worked, with ids for names.
// Kept: no Option of an event. A line is no absence of one.
#[derive(Clone, Copy)]
pub enum Request {
    Line,
    Event(Event),
}

// What any bytes ask, by the names of the roles held: rows 2 and 3, a line, or an event with its rows 4 and 6.
pub fn ask(bytes: &[u8], names: &[u64]) -> Result<Request, Refusal>
    ensures { Asks names.now bytes.now (request_as result) }
{
    match framed(bytes)? {
        RecordKind::Line => Ok(Request::Line),
        RecordKind::Event => {
            let event = event_line(text(bytes), names)?;
            Ok(Request::Event(event))
        }
    }
}
