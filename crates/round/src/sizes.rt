// Which image buffers and used numbers a round takes.
ghost use Rattle.std.specs.Prelude.{◌≡◌};
ghost use Rattle.book.specs.Rounds.{room_fits};

// The records of a host's image buffer: as many as an image can have, 63 role lines, 32 rule lines and their marks.
const ROOM_RECORDS: u32 = 127;

// Its bytes.
const ROOM_SIZE: usize = 16256;

// Whether an image buffer of so many bytes has 127 records, and so many of them can be used.
#[tactic(auto, unfolding(book::specs::Rounds::room_fits))]
pub fn room_fits(len: usize, used: u32) -> bool
    ensures { result ≡ room_fits len used }
{
    len == ROOM_SIZE && used <= ROOM_RECORDS
}
