// Bytes as they are, and packed names as text.
ghost use Rattle.std.specs.Prelude.{map};
ghost use Rattle.names.specs.Unpacked.{unpacked};
ghost use Rattle.columns.specs.Texts.{spaced, before};
ghost use Rattle.columns.specs.Writing.{Writes};

use crate::bytes::put;

// Bytes as they are.
pub fn text(out: &mut [u8], at: usize, bytes: &[u8]) -> usize
    ensures { Writes at bytes.now out.old out.new result }
{
    let count = out.len().saturating_sub(at).min(bytes.len());
    if count == 0 {
        return at;
    }
    out[at..at + count].copy_from_slice(&bytes[..count]);
    at + count
}

// A packed name without the spaces after it.
pub fn word(out: &mut [u8], at: usize, name: u64) -> usize
    ensures { Writes at (unpacked name) out.old out.new result }
{
    let columns = name.to_be_bytes();
    let len = columns.iter().take_while(|b| **b != b' ').count();
    text(out, at, &columns[..len])
}

// Names with a space before each.
fn more(out: &mut [u8], at: usize, names: &[u64]) -> usize
    ensures { Writes at (before (map unpacked names.now)) out.old out.new result }
{
    let mut next = at;
    for name in names {
        let space = put(out, next, b' ');
        next = word(out, space, *name);
    }
    next
}

// Names with one space between.
pub fn words(out: &mut [u8], at: usize, names: &[u64]) -> usize
    ensures { Writes at (spaced (map unpacked names.now)) out.old out.new result }
{
    let Some((first, rest)) = names.split_first() else {
        return at;
    };
    let next = word(out, at, *first);
    more(out, next, rest)
}
