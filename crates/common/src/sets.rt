// Sets of numbers below 64, each as one number of 64 bits: bit k says whether k is in it.
ghost use Rattle.std.specs.Prelude.{◌≡◌};
ghost use Rattle.common.specs.Sets.{has_at, bit_of, only_if, shares};

// Whether k is in the set m.
pub fn has(m: u64, k: usize) -> bool
    ensures { result ≡ has_at m k }
{
    k < 64 && (m >> k) % 2 == 1
}

// The set of k alone; empty where k has no bit.
pub fn single(k: usize) -> u64
    ensures { result ≡ bit_of k }
{
    if k < 64 { 1u64 << k } else { 0 }
}

// The set m where b holds, else the empty set.
pub fn only_if(b: bool, m: u64) -> u64
    ensures { result ≡ only_if b m }
{
    if b { m } else { 0 }
}

// Whether two sets have a number in common.
pub fn share(a: u64, b: u64) -> bool
    ensures { result ≡ shares a b }
{
    a & b != 0
}
