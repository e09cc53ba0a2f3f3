// The fields of a case's record.
use input::read_full;
use std::io;
use std::io::Read;

// The number that digits say, or the greatest where it is above that. Kept: by hand, as the digits are bytes and any bytes say a number.
pub fn decimal(digits: &[u8]) -> usize {
    digits.iter().fold(0, |n: usize, digit| {
        n.saturating_mul(10)
            .saturating_add(usize::from(*digit % 16))
    })
}

// The bytes from one place to another; all, where there are fewer.
pub fn field(bytes: &[u8], from: usize, to: usize) -> &[u8] {
    bytes.get(from..to).unwrap_or(bytes)
}

// Reads a list of `len` bytes to the start of a buffer, and answers how many there were; none where there is no room for them.
pub fn list_read(file: &mut impl Read, buffer: &mut [u8], len: usize) -> io::Result<usize> {
    match buffer.get_mut(..len) {
        Some(list) => read_full(file, list),
        None => Ok(0),
    }
}
