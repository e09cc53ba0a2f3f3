// The columns that a reply and a viewer's line begin with. Document 01, "Reply, 50 bytes".
ghost use Rattle.names.specs.Unpacked.{unpacked};
ghost use Rattle.columns.specs.Texts.{opening_of, front_of};
ghost use Rattle.columns.specs.Writing.{Writes};

use crate::bytes::{blank, put, two_digits};
use crate::texts::word;

// Columns 0 to 4: a letter and a number of two digits, with a space after each.
fn opening(out: &mut [u8], letter: u8, number: u8) -> usize
    ensures { Writes 0 (opening_of letter number) out.old out.new result }
{
    let a = put(out, 0, letter);
    let b = put(out, a, b' ');
    let c = two_digits(out, b, number);
    put(out, c, b' ')
}

// Columns 0 to 13: these, the name padded to eight columns, and a space.
pub fn front(out: &mut [u8], letter: u8, number: u8, name: u64) -> usize
    ensures { Writes 0 (front_of letter number (unpacked name)) out.old out.new result }
{
    let start = opening(out, letter, number);
    let end = word(out, start, name);
    blank(out, end, 14)
}
