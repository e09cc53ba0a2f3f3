// The record of a rule's marks: byte `M`, the name in eight columns, a space, the digits, spaces, the newline. Mark is the format's word; the state's is
// position.
ghost use Rattle.std.specs.Prelude.{◌≡◌, ltb};
ghost use Rattle.names.specs.Unpacked.{unpacked};
ghost use Rattle.book.specs.Images.{mark_record};
ghost use Rattle.book.specs.Restoring.{marks_end, record_marks};
ghost use Rattle.snapshot.specs.Reading.{given};

use crate::digits::{digits_of, marks_in, put_digits};
use columns::{blank, put, word};

// The record of a rule's marks, in so many digits, from its packed name.
pub fn mark_record(digits: usize, name: u64, marks: u64) -> [u8; 128]
    ensures { result ≡ mark_record digits (unpacked name) marks }
{
    let mut out = [b' '; 128];
    let named = put(&mut out, 0, b'M');
    let end = word(&mut out, named, name);
    let start = blank(&mut out, end, 10);
    put_digits(&mut out, start, digits, marks);
    out[127] = b'\n';
    out
}

// Whether marks are among 0 to n.
#[tactic(auto, using(crate::proofs::MarkLaws::within_all))]
fn within(marks: u64, n: usize) -> bool
    ensures { result ≡ ltb marks (marks_end n) }
{
    63 <= n || marks < (1u64 << (n + 1))
}

// The marks in a record, where every byte of it is as it is written in as many digits for a rule of that name, and they are among 0 to n.
#[tactic(auto, using(crate::proofs::MarkLaws::read_other, crate::proofs::MarkLaws::read_same))]
pub fn read_mark(bytes: &[u8], name: u64, n: usize) -> Option<u64>
    ensures { given result ≡ record_marks (unpacked name) n bytes.now }
{
    let marks = marks_in(bytes);
    if bytes != mark_record(digits_of(bytes), name, marks).as_slice() {
        return None;
    }
    within(marks, n).then_some(marks)
}
