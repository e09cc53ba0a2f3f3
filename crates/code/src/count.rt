// The number of patterns in a past, counted over its code.
ghost use Rattle.std.specs.Prelude.{◌≡◌, false};
ghost use Rattle.code.specs.Count.{begins, more, goes_inside, patterns_from};

// What ends a past.
const END: u8 = b';';

// 1 where a byte begins a pattern, inside square brackets or not, and 0 elsewhere.
fn begun(inside: bool, byte: u8) -> usize
    ensures { result ≡ more (begins inside byte) 0 }
{
    match byte {
        b'a' | b'<' | b'[' if !inside => 1,
        _ => 0,
    }
}

// Whether the next byte stands inside square brackets.
fn goes_inside(inside: bool, byte: u8) -> bool
    ensures { result ≡ goes_inside inside byte }
{
    if inside { byte != b']' } else { byte == b'[' }
}

// How many patterns begin before the first `;`.
pub fn patterns(code: &[u8]) -> usize
    ensures { result ≡ patterns_from false code.now }
{
    let mut inside = false;
    let mut count = 0;
    for &byte in code {
        if byte == END {
            return count;
        }
        count += begun(inside, byte);
        inside = goes_inside(inside, byte);
    }
    count
}
