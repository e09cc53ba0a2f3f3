// The id of a name, by the names held.
ghost use Rattle.std.specs.Prelude.{◌≡◌};
ghost use Rattle.code.specs.Code.{id_of};

// The id that no role has: of a name that is not held, and of one held past the ids of seven bits.
// Kept: a number, no Option. `encode` codes every text, and such a name is byte 255 of the code; a rule whose code has one is refused (6).
pub const UNHELD: u8 = 127;

// How many ids of seven bits there are besides that one.
const IDS: usize = 127;

// The id of a name: its place among those held, where that is an id of seven bits.
// Kept: `as`, after the test that makes it exact. By `u8::try_from` the same answer has one case more and the same test.
pub fn id_of(word: &[u8], names: &[u64]) -> u8
    ensures { result ≡ id_of names.now word.now }
{
    match names::find(names, names::pack(word)) {
        Some(place) if place < IDS => place as u8,
        _ => UNHELD,
    }
}
