// Refusals and answers as the one number of 64 bits that a host gets: the refusal's number stands in the upper half.
ghost use Rattle.std.specs.Prelude.{◌≡◌};
ghost use Rattle.stand.specs.Numbers.{refused, answered};

use common::Refusal;

// One of the upper half: the factor of a refusal's number.
pub const FACTOR: u64 = 1 << 32;

// A refusal.
pub fn refused(refusal: Refusal) -> u64
    ensures { result ≡ refused refusal }
{
    u64::from(refusal.number()) * FACTOR
}

// The judge's answer: 1 for yes and 0 for no, or its refusal.
pub fn answered(answer: Result<bool, Refusal>) -> u64
    ensures { result ≡ answered answer }
{
    match answer {
        Ok(true) => 1,
        Ok(false) => 0,
        Err(refusal) => refused(refusal),
    }
}
