// The class of a byte, by ranges and the few marks. Document 01, "A record"; document 02, C-14.
ghost use Rattle.std.specs.Prelude.{◌≡◌, not, eqb};
ghost use Rattle.lexer.specs.Class.{class_of, within, among, marks, wordy};

// Whether a byte is one of `: ; ( ) [ ] < > + * #`.
fn is_mark(b: u8) -> bool
    ensures { result ≡ among b marks }
{
    matches!(
        b,
        b':' | b';' | b'(' | b')' | b'[' | b']' | b'<' | b'>' | b'+' | b'*' | b'#'
    )
}

// The class of a byte: "1 for space; 2 for `a` to `z`; 3 for `0` to `9`; 4 for hyphen; 5 for `: ; ( ) [ ] < > + * #`; 6 for the other bytes from 33 to 126;
// 0 for the rest". The bytes that are common come first. These are tests in a row, as of a match the compiler makes tests in the order of the bytes,
// or a jump table (docs/notes/C-14.md).
// Kept: numbers. Document 01 gives the classes by them; an enum's values would be no plainer.
#[tactic(auto, unfolding(crate::specs::Class::class_of))]
pub fn class_of(b: u8) -> u8
    ensures { result ≡ class_of b }
{
    if matches!(b, b'a'..=b'z') {
        2
    } else if b == b' ' {
        1
    } else if is_mark(b) {
        5
    } else if matches!(b, b'0'..=b'9') {
        3
    } else if b == b'-' {
        4
    } else if matches!(b, b'!'..=b'~') {
        6
    } else {
        0
    }
}

// Whether a byte is of a class other than 0, which are the bytes from 32 to 126. One test, as the bytes of every text are asked this.
#[tactic(auto, unfolding(crate::specs::Class::class_of))]
pub fn has_class(b: u8) -> bool
    ensures { result ≡ not (eqb (class_of b) 0) }
{
    matches!(b, b' '..=b'~')
}

// Whether a byte stands in words: whether it is of class 2, 3 or 4. By tests of its own, as every byte of a word is asked this, with letters first.
#[tactic(auto, unfolding(crate::specs::Class::wordy, crate::specs::Class::class_of))]
pub fn is_wordy(b: u8) -> bool
    ensures { result ≡ wordy b }
{
    matches!(b, b'a'..=b'z') || matches!(b, b'0'..=b'9' | b'-')
}
