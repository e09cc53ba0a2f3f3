// The lines of a file, each made a record and judged.
use crate::judged::judged;
use crate::shown::byte;
use std::io;

// A line padded with spaces to 127 bytes, and the newline: a record, or more where the line is longer. It stands at the start of `bytes`.
fn padded<'a>(line: &[u8], bytes: &'a mut [u8; 300]) -> &'a [u8] {
    let n = line.len().min(299);
    let end = n.max(127);
    bytes[..n].copy_from_slice(&line[..n]);
    bytes[n..end].fill(b' ');
    bytes[end] = b'\n';
    &bytes[..end + 1]
}

// What became of a line.
fn line_judged(rt: &impl Print, line: &[u8], held: &[u64]) -> io::Result<()> {
    if let Some((b'=', bytes)) = line.split_first() {
        return judged(rt, bytes, held);
    }
    let mut bytes = [0u8; 300];
    judged(rt, padded(line, &mut bytes), held)
}

// A case: the line, and what became of it.
fn one_case(rt: &impl Print, line: &[u8], held: &[u64]) -> io::Result<()> {
    for b in line {
        byte(rt, *b)?;
    }
    rt.write_all(b" => ")?;
    line_judged(rt, line, held)?;
    rt.write_all(b"\n")
}

// Every line of a file, in order.
pub fn all_cases(rt: &impl Print, file: &[u8], held: &[u64]) -> io::Result<()> {
    for line in file.split_inclusive(|b| *b == b'\n') {
        one_case(rt, line.strip_suffix(b"\n").unwrap_or(line), held)?;
    }
    Ok(())
}
