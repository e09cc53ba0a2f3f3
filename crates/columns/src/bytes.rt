// Single bytes, digits and spaces.
ghost use Rattle.std.specs.Prelude.{[], ◌∷◌, ◌+◌, ◌-◌, ◌/◌, ◌%◌};
ghost use Rattle.columns.specs.Texts.{spaces};
ghost use Rattle.columns.specs.Writing.{Writes};

// One byte.
pub fn put(out: &mut [u8], at: usize, b: u8) -> usize
    ensures { Writes at (b ∷ []) out.old out.new result }
{
    if out.len() <= at {
        return at;
    }
    out[at] = b;
    at + 1
}

// A number below 100 as two digits.
pub fn two_digits(out: &mut [u8], at: usize, n: u8) -> usize
    ensures { Writes at ((n / 10 + 48) ∷ (n % 10 + 48) ∷ []) out.old out.new result }
{
    let units = put(out, at, n / 10 + 48);
    put(out, units, n % 10 + 48)
}

// Spaces up to column `to`.
pub fn blank(out: &mut [u8], at: usize, to: usize) -> usize
    ensures { Writes at (spaces (to - at)) out.old out.new result }
{
    let end = to.min(out.len());
    if end <= at {
        return at;
    }
    out[at..end].fill(b' ');
    end
}
