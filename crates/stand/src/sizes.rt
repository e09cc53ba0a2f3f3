// Sizes that a host names beside its buffers.
ghost use Rattle.std.specs.Prelude.{◌≡◌, eqb};
ghost use Rattle.stand.specs.Calls.{total};

// Whether the sizes add up to a length. It takes each off what is left, so that no sum can wrap.
pub fn fits(sizes: &[u32], len: usize) -> bool
    ensures { result ≡ eqb (total sizes.now) len }
{
    let mut left = len;
    for size in sizes {
        // Kept: a cast. `usize` has no `From<u32>`, and `try_from` would make a refusal that cannot happen.
        let Some(after) = left.checked_sub(*size as usize) else {
            return false;
        };
        left = after;
    }
    left == 0
}
