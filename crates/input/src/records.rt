// The records of an open file.
ghost use Rattle.std.specs.Prelude.{◌≡◌, ◌<◌, IfOk, length, take};
ghost use Rattle.std.specs.Io.KnownBytes.{Consumes, IsAtEnd};
ghost use Rattle.input.specs.Records.{IsPrefixLen, HandedOn};

use common::sizes::RECORD_SIZE;
use std::io;
use std::io::Read;

// Why no further record is asked for: the file has ended, so that the last record is not whole or there is none; an answer could not be written;
// as many records are answered as a number of 64 bits counts, which no file reaches.
#[derive(Clone, Copy, Debug, PartialEq, Eq)]
pub enum Stop {
    Ended,
    Unwritten,
    Counted,
}

// One read, to the start of the bytes that are unread so far: how many came, none at the end of the file.
fn one_read<R: Read>(file: &mut R, rest: &mut [u8]) -> io::Result<usize>
    ensures count { IfOk result (λ n. IsPrefixLen n rest.new) }
    ensures bytes { IfOk result (λ n. Consumes (R.remaining file.old) (R.remaining file.new) (take n rest.new)) }
    ensures end { IfOk result (λ n. n ≡ 0 → 0 < length rest.new → IsAtEnd (R.remaining file.new)) }
{
    file.read(rest)
}

// Reads to the start of `bytes` until they are full or the file ends, and answers how many there were. One read may bring fewer bytes than are
// left in the file.
pub fn read_full<R: Read>(file: &mut R, bytes: &mut [u8]) -> io::Result<usize>
    ensures count { IfOk result (λ n. IsPrefixLen n bytes.new) }
    ensures bytes { IfOk result (λ n. Consumes (R.remaining file.old) (R.remaining file.new) (take n bytes.new)) }
    ensures end { IfOk result (λ n. n < length bytes.new → IsAtEnd (R.remaining file.new)) }
{
    let mut done = 0;
    // Kept: a loop over reads. `read_exact` does not tell how many bytes came before the end.
    while done < bytes.len() {
        let n = one_read(file, &mut bytes[done..])?;
        if n == 0 {
            return Ok(done);
        }
        done += n;
    }
    Ok(done)
}

// Reads the next record to the start of `bytes`, and answers how many bytes it has: 128, fewer in a short last record, none where nothing is left. A
// read that fails is an error, and brings no record.
pub fn next<R: Read>(file: &mut R, bytes: &mut [u8; RECORD_SIZE]) -> io::Result<usize>
    ensures count { IfOk result (λ n. IsPrefixLen n bytes.new) }
    ensures bytes { IfOk result (λ n. Consumes (R.remaining file.old) (R.remaining file.new) (take n bytes.new)) }
    ensures end { IfOk result (λ n. n < 128 → IsAtEnd (R.remaining file.new)) }
{
    read_full(file, bytes)
}

// Hands every record of the file to `answer`, in order, a short last one as it is. `answer` says whether its answer could be written; it stops
// only there, at a record that is not whole, or where as many are answered as 64 bits count. A read that fails is an error, and what it brought is
// not handed on.
pub fn each_record<R: Read, F: FnMut(&[u8]) -> bool>(
    file: &mut R,
    mut answer: F,
) -> io::Result<Stop>
    requires { F.IsAlwaysCallable answer }
    ensures { IfOk result (λ stop. HandedOn F.FnMut answer (R.remaining file.old) (R.remaining file.new) stop) }
{
    // Kept: a counted loop, since a proved loop has to end and nothing says that a file does. The proof alone reads `count`.
    for count in 0..u64::MAX {
        let mut bytes = [0u8; RECORD_SIZE];
        let len = next(file, &mut bytes)?;
        if len == 0 {
            return Ok(Stop::Ended);
        }
        let written = answer(&bytes[..len]);
        if !written {
            return Ok(Stop::Unwritten);
        }
        if len < RECORD_SIZE {
            return Ok(Stop::Ended);
        }
    }
    Ok(Stop::Counted)
}
