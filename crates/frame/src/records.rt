// The frame of a record. Document 01, "A record" and rows 2 and 3 of the refusals.
ghost use Rattle.std.specs.Prelude.{◌≡◌};
ghost use Rattle.frame.specs.Record.{kind_by, frame_of, answered};

use crate::texts::text;
use common::Refusal;
use common::sizes::RECORD_SIZE;
use lexer::all_classed;

// A record is a line or an event (document 01: act).
#[derive(Clone, Copy, Debug, PartialEq, Eq)]
pub enum RecordKind {
    Line,
    Event,
}

impl TryFrom<u8> for RecordKind {
    type Error = Refusal;

    ghost try_from_gives = { λ byte kind. kind ≡ answered (kind_by byte) };

    // By byte 0 of a record: `L` is a line and `E` an event.
    #[tactic(auto, unfolding(crate::specs::Record::kind_by))]
    fn try_from(byte: u8) -> Result<RecordKind, Refusal> {
        match byte {
            b'L' => Ok(RecordKind::Line),
            b'E' => Ok(RecordKind::Event),
            _ => Err(Refusal::Malformed),
        }
    }
}

// The frame of any bytes: which kind of record they are, or why they are none.
#[tactic(auto, unfolding(crate::specs::Record::frame_of))]
pub fn framed(bytes: &[u8]) -> Result<RecordKind, Refusal>
    ensures { result ≡ answered (frame_of bytes.now) }
{
    if bytes.len() != RECORD_SIZE {
        return Err(Refusal::RecordLength);
    }
    if bytes[127] != b'\n' || !all_classed(text(bytes)) {
        return Err(Refusal::Malformed);
    }
    RecordKind::try_from(bytes[0])
}
