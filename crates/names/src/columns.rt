// A name packed in a number, and its columns. Document 01, "Columns 5 to 12: the name .. padded with spaces".
ghost use Rattle.std.specs.Prelude.{◌≡◌};
ghost use Rattle.names.specs.Name.{column_of, packed, column_at};

use std::array;

// Column i of a word padded with spaces.
#[tactic(auto, unfolding(crate::specs::Name::column_of))]
fn padded(word: &[u8], i: usize) -> u8
    ensures { result ≡ column_of word.now i }
{
    word.get(i).copied().unwrap_or(b' ')
}

// The first eight columns of a word padded with spaces, as one number.
pub fn pack(word: &[u8]) -> u64
    ensures { result ≡ packed word.now }
{
    u64::from_be_bytes(array::from_fn(|i| padded(word, i)))
}

// Column i of a packed name, 0 the leftmost; a space where there is no such column.
#[tactic(auto, using(crate::proofs::ColumnLaws::column_byte))]
pub fn column(name: u64, i: usize) -> u8
    ensures { result ≡ column_at name i }
{
    name.to_be_bytes().get(i).copied().unwrap_or(b' ')
}
