// What one pass over a past finds for one event, put together from what it finds of the parts.
ghost use Rattle.std.specs.Prelude.{◌≡◌};
ghost use Rattle.positions.specs.Summaries.{after, pat_summary, empty_summary, seq_summary, alt_summary, star_summary, star_if, step_of, ends_of};

use common::sets::{has, only_if, share, single};

// What the pass finds of a part of a past: the number of the pattern after it; whether it allows the empty list; whether a position held may
// end it; the patterns that may begin it and that the event meets; those that the event leads to from a position held; those that may end it.
// Kept: two flags. Each counts whether or not the other is set.
#[derive(Clone, Copy, Debug, PartialEq, Eq)]
pub struct Summary {
    pub next: usize,
    pub nullable: bool,
    pub ending: bool,
    pub first: u64,
    pub moved: u64,
    pub last: u64,
}

// The number after k, which stops at 65: above 64 it says only that some pattern has no bit.
fn following(k: usize) -> usize
    ensures { result ≡ after k }
{
    if k < 65 { k + 1 } else { k }
}

impl Summary {
    // `()`, before the pattern numbered k.
    pub fn nothing(k: usize) -> Self
        ensures { result ≡ empty_summary k }
    {
        Self {
            next: k,
            nullable: true,
            ending: false,
            first: 0,
            moved: 0,
            last: 0,
        }
    }

    // The pattern numbered k, at the positions held; `met` says whether the event meets it.
    pub fn one(positions: u64, met: bool, k: usize) -> Self
        ensures { result ≡ pat_summary positions met k }
    {
        let unit = single(k);
        Self {
            next: following(k),
            nullable: false,
            ending: has(positions, k),
            first: only_if(met, unit),
            moved: 0,
            last: unit,
        }
    }

    // Side by side.
    pub fn in_order(self, second: Self) -> Self
        ensures { result ≡ seq_summary self second }
    {
        let entered = second.moved | only_if(self.ending, second.first);
        Self {
            next: second.next,
            nullable: self.nullable && second.nullable,
            ending: second.ending || second.nullable && self.ending,
            first: self.first | only_if(self.nullable, second.first),
            moved: self.moved | entered,
            last: second.last | only_if(second.nullable, self.last),
        }
    }

    // The pattern numbered next, side by side after this, with a star or without, at the positions held; `met` says whether the event meets it.
    // It is `one`, `repeated` where it has a star, `in_order` after this; what is known beforehand of a pattern is not worked out again.
    pub fn then_pattern(self, positions: u64, met: bool, starred: bool) -> Self
        ensures { result ≡ seq_summary self (star_if starred (pat_summary positions met self.next)) }
    {
        let place = single(self.next);
        let held = share(positions, place);
        let entered = only_if(met, place);
        let next = following(self.next);
        let first = self.first | only_if(self.nullable, entered);
        if starred {
            let ending = held | self.ending;
            return Self {
                next,
                nullable: self.nullable,
                ending,
                first,
                moved: self.moved | only_if(ending, entered),
                last: place | self.last,
            };
        }
        Self {
            next,
            nullable: false,
            ending: held,
            first,
            moved: self.moved | only_if(self.ending, entered),
            last: place,
        }
    }

    // Either.
    pub fn one_of(self, other: Self) -> Self
        ensures { result ≡ alt_summary self other }
    {
        Self {
            next: other.next,
            nullable: self.nullable || other.nullable,
            ending: self.ending || other.ending,
            first: self.first | other.first,
            moved: self.moved | other.moved,
            last: self.last | other.last,
        }
    }

    // A star.
    pub fn repeated(self) -> Self
        ensures { result ≡ star_summary self }
    {
        Self {
            nullable: true,
            moved: self.moved | only_if(self.ending, self.first),
            ..self
        }
    }

    // The positions after the event, from those before it, where this is the summary of the whole past. Position 0 is not among them.
    pub fn moved_on(self, positions: u64) -> u64
        ensures { result ≡ step_of positions self }
    {
        self.moved | only_if(has(positions, 0), self.first)
    }

    // The positions at which the past may end, 0 where it allows the empty list.
    pub fn ends(self) -> u64
        ensures { result ≡ ends_of self }
    {
        self.last | only_if(self.nullable, 1)
    }
}
