// One pass over a past's code for one event. A past loops over its sequences, and a sequence over its factors; the calls come back to `past` only at a round
// bracket. What falls is the code left, and then the level.
ghost use Rattle.std.specs.Prelude.{◌≡◌, get_or};
ghost use Rattle.follow.specs.Walked.{stands_at, starts, StarsEnd, StarsRead, BaseRead, FactorRead, FurtherRead, SequenceRead, PastRead};

use patterns::Matcher;
use positions::Summary;

// Where a spelling ends, and what the pass found of it.
#[derive(Clone, Copy)]
pub struct Walk {
    pub end: usize,
    pub summary: Summary,
}

// What a pass reads: the past's code with the event and of each role the set of those above it, and the positions held before the event.
// Kept: places in the code are numbers. Where the trigger stands, one after the past's end, is kept as a byte of the rule's row.
#[derive(Clone, Copy)]
pub struct Step<'a> {
    pub matcher: Matcher<'a>,
    pub positions: u64,
}

// Whether that byte stands at a place of the code.
#[tactic(auto, unfolding(crate::specs::Walked::stands_at))]
fn stands(code: &[u8], at: usize, b: u8) -> bool
    ensures { result ≡ stands_at code.now at b }
{
    code.get(at) == Some(&b)
}

// Whether a base begins at a place of the code.
fn starts(code: &[u8], at: usize) -> bool
    ensures { result ≡ starts (get_or code.now at 0) }
{
    matches!(code.get(at), Some(b'a' | b'<' | b'[' | b'('))
}

// Where the stars from a place of the code on end.
fn stars_end(code: &[u8], at: usize) -> usize
    ensures { StarsEnd code.now at result }
{
    let mut end = at;
    while stands(code, end, b'*') {
        end += 1;
    }
    end
}

// The stars after a base. One says as much as many.
fn stars(code: &[u8], walk: Walk) -> Walk
    ensures { StarsRead code.now walk result }
{
    let end = stars_end(code, walk.end);
    if end == walk.end {
        return walk;
    }
    Walk {
        end,
        summary: walk.summary.repeated(),
    }
}

impl Step<'_> {
    // A base: a pattern, (), or a past in round brackets.
    // Kept: a pattern too, though `further` reads patterns itself and calls this at a `(` alone. So the promise is that of every base.
    #[cycle(base_factor_further_past_sequence)]
    fn base(&self, at: usize, k: usize) -> Walk
        ensures { BaseRead self.now.positions self.now.matcher.above.now self.now.matcher.event.now self.now.matcher.code.now at k result }
    {
        if !stands(self.matcher.code, at, b'(') {
            let judged = self.matcher.pattern(at);
            let summary = Summary::one(self.positions, judged.ok, k);
            return Walk {
                end: judged.end,
                summary,
            };
        }
        let inside = at + 1;
        if stands(self.matcher.code, inside, b')') {
            let summary = Summary::nothing(k);
            return Walk {
                end: inside + 1,
                summary,
            };
        }
        let past = self.past(inside, k);
        if past.end >= self.matcher.code.len() {
            return past;
        }
        Walk {
            end: past.end + 1,
            ..past
        }
    }

    // A factor: a base and its stars.
    #[cycle(base_factor_further_past_sequence)]
    fn factor(&self, at: usize, k: usize) -> Walk
        ensures { FactorRead self.now.positions self.now.matcher.above.now self.now.matcher.event.now self.now.matcher.code.now at k result }
    {
        let base = self.base(at, k);
        stars(self.matcher.code, base)
    }

    // One factor more, put in order after what was found before it. A pattern, with stars or without, is read with no call that recurs.
    // It is made part of the loop of `sequence`, where what is found so far then stays in registers.
    #[inline(always)]
    #[cycle(base_factor_further_past_sequence)]
    fn further(&self, walk: Walk) -> Walk
        ensures { FurtherRead self.now.positions self.now.matcher.above.now self.now.matcher.event.now self.now.matcher.code.now walk result }
    {
        if stands(self.matcher.code, walk.end, b'(') {
            let factor = self.factor(walk.end, walk.summary.next);
            return Walk {
                end: factor.end,
                summary: walk.summary.in_order(factor.summary),
            };
        }
        let judged = self.matcher.pattern(walk.end);
        let end = stars_end(self.matcher.code, judged.end);
        let starred = end != judged.end;
        Walk {
            end,
            summary: walk
                .summary
                .then_pattern(self.positions, judged.ok, starred),
        }
    }

    // A sequence: factors side by side, at least one. What is found before the first is what is found of `()`. It is made part of `past`, since most pasts are
    // one sequence.
    #[inline(always)]
    #[cycle(base_factor_further_past_sequence)]
    fn sequence(&self, at: usize, k: usize) -> Walk
        ensures { SequenceRead self.now.positions self.now.matcher.above.now self.now.matcher.event.now self.now.matcher.code.now at k result }
    {
        let mut walk = Walk {
            end: at,
            summary: Summary::nothing(k),
        };
        loop {
            walk = self.further(walk);
            if !starts(self.matcher.code, walk.end) {
                return walk;
            }
        }
    }

    // A past from at on, its patterns numbered from k on: sequences to choose from, each added to those before it.
    #[cycle(base_factor_further_past_sequence)]
    pub fn past(&self, at: usize, k: usize) -> Walk
        ensures { PastRead self.now.positions self.now.matcher.above.now self.now.matcher.event.now self.now.matcher.code.now at k result }
    {
        let mut walk = self.sequence(at, k);
        while stands(self.matcher.code, walk.end, b'+') {
            let other = self.sequence(walk.end + 1, walk.summary.next);
            walk = Walk {
                end: other.end,
                summary: walk.summary.one_of(other.summary),
            };
        }
        walk
    }
}
