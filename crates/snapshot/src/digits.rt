// Capital hexadecimal digits.
ghost use Rattle.std.specs.Prelude.{◌≡◌, ◌%◌};
ghost use Rattle.book.specs.Images.{hex_digit, hex_of};
ghost use Rattle.book.specs.Restoring.{hex_value, digits_of, marks_in};
ghost use Rattle.columns.specs.Writing.{Writes};

use columns::put;

// How many digits a record is written with.
pub const DIGITS: usize = 16;

// How many an older record has.
const SHORT_DIGITS: usize = 8;

// The last digit of a number.
#[tactic(auto, unfolding(book::specs::Images::hex_digit))]
fn hex_digit(n: u64) -> u8
    ensures { result ≡ hex_digit (n % 16) }
{
    // Kept: `as`. The number is below 16; `u8::try_from` would need a value for a failure that cannot come.
    match (n % 16) as u8 {
        d @ 0..=9 => b'0' + d,
        d => b'A' + (d - 10),
    }
}

// The last `count` digits of a number. What falls is the digits left.
pub fn put_digits(out: &mut [u8], at: usize, count: usize, n: u64) -> usize
    ensures { Writes at (hex_of count n) out.old out.new result }
{
    if count == 0 {
        return at;
    }
    let last = put_digits(out, at, count - 1, n / 16);
    put(out, last, hex_digit(n))
}

// The value of a digit, 0 of any other byte.
#[tactic(auto, unfolding(book::specs::Restoring::hex_value))]
fn hex_value(b: u8) -> u64
    ensures { result ≡ hex_value b }
{
    match b {
        b'0'..=b'9' => u64::from(b - b'0'),
        b'A'..=b'F' => u64::from(b - b'A') + 10,
        _ => 0,
    }
}

// How many digits a record is read with: eight where a space follows eight columns of them, else sixteen.
#[tactic(auto, unfolding(book::specs::Restoring::digits_of))]
pub fn digits_of(bytes: &[u8]) -> usize
    ensures { result ≡ digits_of bytes.now }
{
    match bytes.get(10 + SHORT_DIGITS) {
        Some(b' ') => SHORT_DIGITS,
        _ => DIGITS,
    }
}

// The number that the digits of a record say, from column 10 on; where there are fewer bytes, those that there are.
#[tactic(auto, using(crate::proofs::DigitLaws::digits_few, crate::proofs::DigitLaws::room_left, crate::proofs::DigitLaws::digit_more, book::proofs::MarkRecords::hex_below))]
pub fn marks_in(bytes: &[u8]) -> u64
    ensures { result ≡ marks_in (digits_of bytes.now) bytes.now }
{
    let start = bytes.len().min(10);
    let end = bytes.len().min(10 + digits_of(bytes));
    let mut n = 0;
    for b in &bytes[start..end] {
        n = n * 16 + hex_value(*b);
    }
    n
}
