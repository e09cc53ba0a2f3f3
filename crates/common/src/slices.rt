// Parts of slices.
ghost use Rattle.std.specs.Prelude.{◌≡◌, take};

// The first n elements; where there are fewer, those that there are.
pub fn prefix<T>(elements: &[T], n: usize) -> &[T]
    ensures { result.now ≡ take n elements.now }
{
    &elements[..n.min(elements.len())]
}
